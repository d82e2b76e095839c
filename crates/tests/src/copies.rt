//! A trace with one record of each kind, copied.
use trace::copying::copy;

#[test]
fn copy_is_the_trace(rt: HostRuntime) {
    let trace =
        b"\x00\x04\x02\x02\x00\x01\x01\x03\x09\x02\x01\x02\x01\x08\x04\x02\x01\x04\x04\x02\x01\x05\xc8\x01\x03\xe8\x07\x04\x03end";
    let mut bytes = [7; 40];
    assert!(rt; copy(trace, &mut bytes).is_ok());
    assert!(rt; &bytes[0..32] == trace.as_slice());
    assert!(rt; bytes[32..40] == [7; 8]);
}
