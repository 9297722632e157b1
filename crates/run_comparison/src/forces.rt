//! Which of the run's texts was in force in each run before a record.

/// Which of the run's texts is in force in each run, by its number from 0; none where it is none of them.
#[derive(Clone, Copy, Debug, PartialEq, Eq)]
pub struct Forces {
    pub old: Option<usize>,
    pub new: Option<usize>,
}
