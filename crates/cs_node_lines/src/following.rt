//! A replica that answers each request as it comes, over any store, reader and writer. Requests are the lines of a node and those that
//! only look. They are the hub's answers, with the clash at which a wish stops, and several edits as one too
//! (`specs/following/Requests.antt`). It stands on `working` for what a node's line does, and on `asks` and `told`. `follow_on` opens the
//! replica, and works each request, prints its text and an empty line, and sends both before it reads the next. It promises how that ends (`specs/following/Endings.antt`): which requests were worked by which steps
//! (`specs/following/FollowStep.antt`), and that one that can't be read is told so and ends nothing. `laws` says that lines make one list of requests,
//! and that each has one text. Its tests stand in `bench/check_node.sh`.

mod follow;
pub mod laws;
mod looking;
mod next;
mod note;
mod noting;
mod seeing;
mod several;

pub use follow::follow_on;
pub use seeing::seen_line;
