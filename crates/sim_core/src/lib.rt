//! What all simulated machines have in common: how they are stepped, how a schedule is played, and how a run is drawn.
//!
//! What is proved, for any machine that meets `Machine`:
//! `play_schedule`: the schedule is played to its end, or refused at its first step that isn't enabled or as unfinished, each exactly; after a refusal the machine stands behind the steps that were taken.
//! `play_drawn`: each step is the choice that the next word of a seed and of the run's number names, to the end; there is one such play (`one_drawn_play`, `one_list_of_drawn_runs`).
//! `no_false_alarm`: what a machine without a fault gives when it is done is inside, and no edge speaks against it.
#![tactic(auto)]

mod alarms;
mod drawn;
mod machine;
mod schedule;

pub use alarms::no_false_alarm;
pub use drawn::{one_drawn_play, one_list_of_drawn_runs, play_drawn};
pub use machine::Machine;
pub use schedule::{PlayFault, play_schedule};
