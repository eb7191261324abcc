//! What the commands of the program `binlog` that read logs share: what they are asked for, the files that they read, of which the last
//! one may be followed, what is written to standard error of these, and the outcome of what the commands write.
#![tactic(auto)]

mod file_behind;
mod files;
mod follower;
mod following;
mod growing;
mod inputs;
mod outputs;
mod positions;
mod progress;
mod reported;
mod request;
mod rotations;
mod standard_output;
mod taken;

pub use files::read_file;
pub use follower::{Follower, NoFollower};
pub use inputs::{HostInput, HostInputs, HostLog, Inputs};
pub use outputs::{outcome_of_lines, outcome_of_text};
pub use positions::Positions;
pub use progress::Progress;
pub use reported::{CONTENT_LIMIT, Reported, report_left_out, shown_name};
pub use request::{Reading, Request, Terminals};
pub use rotations::{follow, goes_on};
pub use standard_output::{begin_output, refuse_output};
pub use taken::{read_all, read_followed, read_taken};
