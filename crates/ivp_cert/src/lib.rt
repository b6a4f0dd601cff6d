//! Decisions: the best point of a problem, the certificates that show it, and the texts of problems and decisions.
//!
//! The contract for the layer above: `decide` gives the decision on a problem. `cut` gives the certificate of a problem, and
//! `cut_by_workers` the same by several workers; `accepts` tells whether a certificate is accepted for what is claimed, and then the
//! claimed point is the best. `read_problem` and `read_decision` give what is in the bytes, or the first refusal with its line and
//! its cause; `print_decision` writes a decision, `print_decision_by_workers` the same with several workers, and what they write stands for the decision.
//!
//! Reading order: `path`, `cert`, `claim`; `trail`, `cutting`, `subtree`, `share`, `by_workers`, `best`, `accept`, `law`; `words`,
//! `piece`, `terms`, `unfinished`, `stage`, `read`; `line`, `phase`, `decision`; `put`, `put_problem`, `path_text`, `print`, `print_by_workers`, `printed`. Of
//! specs/ read `Certificates`, `SaidLines`, `Problems`, `Decisions`, `Texts` and `Printed`; `Walks` serves the checker alone,
//! `Subtrees` and `Dealing` the cut by several workers, `PathTexts` the printer, `PathsKept` the paths, and `Stages` the reader.
#![tactic(auto)]

mod accept;
mod best;
mod by_workers;
mod cert;
mod claim;
mod cutting;
mod decision;
mod law;
mod line;
mod path;
mod path_text;
mod phase;
mod piece;
mod print;
mod print_by_workers;
mod printed;
mod put;
mod put_problem;
mod read;
mod share;
mod stage;
mod subtree;
mod terms;
mod trail;
mod unfinished;
mod words;

pub use accept::accepts;
pub use best::decide;
pub use by_workers::cut_by_workers;
pub use cert::{Cert, Line};
pub use claim::{Claim, Decision};
pub use cutting::cut;
pub use decision::read_decision;
pub use law::{accepted_law, certificate_law, printed_law};
pub use path::Path;
pub use print::{print_decision, put_decision};
pub use print_by_workers::print_decision_by_workers;
pub use read::read_problem;
