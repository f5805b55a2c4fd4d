// The rows of the list that go over all parties.

/// A row of the list whose events are each of one party, the parties in order.
#[derive(Clone, Copy)]
pub(crate) enum Row {
    Begins,
    Asks,
    Fetches,
    Agains,
    Clears,
    Commits,
    Answers,
    Gives,
    Issues,
    Dooms,
    Resumes,
    Dies,
    Renews,
    Loads,
    Looks,
    Finishes,
    Closes,
}
