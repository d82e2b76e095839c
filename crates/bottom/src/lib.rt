//! The two memories at the bottom. Each stands on an image of bytes and answers its requests later: the one in order, each
//! after so many steps, the other as a script says.
#![tactic(auto)]

pub mod ordered;
pub mod scripted;
