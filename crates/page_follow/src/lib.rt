//! A follower of pages: it does what notes tell on trees of its own, and prints a page when it is as it shall be seen. The notes come as frames from a
//! source.
#![tactic(auto)]

mod follower;
mod input;
mod page;
mod stream;
mod writer;

pub use follower::{FollowFault, Follower};
pub use input::{FollowEnd, MOST_FRAMES, live_follow};
pub use stream::FrameFollower;
