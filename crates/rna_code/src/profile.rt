//! The two tables of commands.

/// Which commands there are.
#[derive(Clone, Copy, PartialEq, Eq, Debug)]
pub enum Profile {
    /// The twenty commands of the contest's task.
    Plain,
    /// Those, and `PIPIIFP`, which adds a copy of the top bitmap: this project's own.
    Wide,
}
