//! Edit scripts, what their lines ask for and the texts of replies, and the commands `edit` and `propagate`.
//!
//! What answers requests is a trait, `Answer`, over the items and the bookmark that are held: a session answers them.
//!
//! In the order in which data flows; each module uses only those before it:
//!
//! - `gathered`: texts that are gathered up to a limit.
//! - `paths`: paths, and the numbers that stand for them.
//! - `counted`: what only a counted script asks for.
//! - `request`: what a line asks for.
//! - `reader`: what is known between two bytes of a script.
//! - `reply`: replies to requests.
//! - `changes`: the bits at a bookmark, and what changed since.
//! - `item_counts`: where the steps of an item are in the unrolled circuit.
//! - `signs`: the Pauli strings of words.
//! - `editor`: a script as it comes, and each reply written in one go.
//! - `watcher`: how a script is read beside the output of its replies.
//! - `logged_input`: an input in memory that keeps a log of such reads.
//! - `words`: where a string is put in, and the string, that the words of a command line or a script ask about.
//! - `lines`: the way of a string as lines.
//! - `circuit_replies`: what a script asks of its circuit as a whole: deterministic bits, coins, the way of a string and the distance.
//! - `bookmarks`: the bits that changes are counted from.
//! - `session_answers`: requests of a script, answered from a session.
//! - `session_edit`: a script, answered from a session that is opened for it.
//! - `edit`: the command that edits a circuit by a script.
//! - `laws`: each script has an answer, and no other if it asks for no distance.
//! - `propagate`: the command, of one string. `each`: of each error.
//!
//! Source: this project's own.
//!
//! Proved: the bytes that an `Editor` takes ask for the requests that `specs/Scripts.antt` gives, and when
//! the call returns exactly the replies to them are written, each as `IsAnswer` there says; if the output
//! failed or the answer is 20, a first part of these (`specs/Editors.antt`). Replies have the texts
//! that `CountedReplies`, `Changes`, `ItemCounts`, `Signs` and `WayTexts` of `specs/` give.
//!
//! Proved: `edit_circuit` writes exactly the replies that `specs/Scripts.antt` gives for the script and the
//! circuit's items, or ends by its own cases (`specs/ScriptEndings.antt`), and they are those of one answer, of which the reply to
//! each line is written before more of the script is asked for (`specs/ScriptTurns.antt`). `specs/inner/` has what only private
//! contracts cite.
//!
//! Proved of `propagate`: what is written is the way of the string, as `stab_ways` says it, with what that means for runs.
#![tactic(auto)]

mod bookmarks;
mod changes;
mod circuit_replies;
mod counted;
mod each;
mod edit;
mod editor;
mod gathered;
mod item_counts;
pub mod laws;
mod lines;
mod logged_input;
mod paths;
mod propagate;
mod reader;
mod reply;
mod request;
mod session_answers;
mod session_edit;
mod signs;
mod watcher;
mod words;

pub use changes::{BookmarkedBits, push_changes};
pub use counted::{CountedRequest, read_round};
pub use each::run_propagate_each;
pub use edit::{run_edit, run_edit_watched};
pub use editor::{Answer, Answered, Editor};
pub use item_counts::show_counts;
pub use logged_input::{KeepsLog, LoggedInput, LoggedRead};
pub use paths::read_path;
pub use propagate::run_propagate;
pub use reader::ScriptReader;
pub use reply::{Reply, SessionNumbers, memory};
pub use request::{ItemEdit, Request, Show};
pub use session_edit::edit_circuit;
pub use signs::read_string;
pub use watcher::{NoWatcher, Watcher};
