//! The questions of a design, and their answers by trying all assignments in counting order.
#![tactic(auto)]

mod answer;
mod cases;
mod judging;
mod question;

pub use answer::{Answer, mismatched};
pub use judging::{answers, one_list_of_answers, refined_law, replay_law};
pub use question::{Point, Question, questions};
