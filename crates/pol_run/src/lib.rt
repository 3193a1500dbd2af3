//! What a run of the policy machine is: which answers to a script are right, for any number of
//! sessions and phases.
//!
//! The definitions stand in `specs/`: `Spots` says where each line stands, `History` reads the commits
//! from the answers, `Moments` says between which revisions a line may be answered, `RightAnswer` has
//! the clauses for each kind of answer, and `Run` puts them together. `InShort` says what a run says,
//! by the index, the session and the phase of each line (`ByIndex`). `SerialLines` says what lines
//! answered in input order are, and `Serial` has the answers that the state alone gives. `Told` reads the
//! history from the bytes of an output. The laws between them are in `laws`.
//!
//! Small outputs hold the definition: `refuted` has those that are no runs (`WrongCommits`,
//! `WrongVerdicts`, `WrongMoments`, `WrongRows`, `WrongAnswers`), and `allowed` those that are
//! (`RightRuns`). They are made of the lines of `ExampleLines`.
#![tactic(auto)]

pub mod allowed;
pub mod laws;
pub mod refuted;
