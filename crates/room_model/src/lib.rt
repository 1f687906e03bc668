//! What a room is: its rules as definitions, with samples of them.
//!
//! The definitions stand in `specs/`, one file a subject. A newcomer reads them in this order, behind the log's
//! (`room_log`: sessions, states, updates and entries, what a server takes) and those of trees (`room_nodes`: steps,
//! cells, what takes an operation back).
//!
//! 1. `Init`, `Edits`: the operations that an edit makes on a tree, or why it is refused.
//! 2. `History`, `Presence`: undo and redo; the presence of users.
//! 3. `Account`, `Calls`, `Receive`: what a client holds, shows and sends; its calls; what it does with a message.
//! 4. `Notices`: what changed in a view, and where.
//! 5. `Access`, `Server`: who may do what; a step of the server.
//! 6. `Lines`, `World`, `Run`: the lines of a schedule and of its report; a server, clients and queues, and what each
//!    line does; a run with its log.
//!
//! The laws of runs stand above, in `room_laws`.
#![tactic(auto)]

mod cases;

pub use cases::samples;
