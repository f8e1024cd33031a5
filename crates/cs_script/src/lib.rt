//! Scripts of a world: each line names an event, and what each event came to is printed, a line each. Then the hub and the replicas are printed,
//! each with its rows. `read_event` reads a line, exactly (`specs/Events.antt`). `run_script` carries the promise, end by end
//! (`specs/Endings.antt`). The script is read whole before any event is made. A line that names none is told by its number, and nothing is
//! written. Else the text of a run is written, step by step, of a new world in memory, and of the world at its end. That world has the headline
//! of `cs_world`. The crate stands on `cs_world`, and on `cs_text::parse` for the words of a line. It stands on `cs_node_lines::told` and
//! `cs_text` for what is printed, and on `cs_lines` for its lines. Its tests stand in `cs_world_tests`.
//! What names no section of SQLite's documentation is profile of this project.
#![tactic(auto)]

mod dumping;
mod event;
mod fault;
mod outcome;
mod playing;
mod reading;
mod script;

pub use event::read_event;
pub use fault::ScriptFault;
pub use outcome::OutcomeText;
pub use script::run_script;
