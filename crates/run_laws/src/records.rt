//! Prefixes of records. Each law is the contract of a public function with an empty body.

ghost use Rattle.run_laws.specs.Prefixes.{EachPrefixIsOfARun};

/// Each prefix of the record of a run from an opening is the record of a run, which goes on to that run's end: a step adds one deed at most. So what is shown of
/// all runs at their ends holds at every prefix of a record.
pub fn each_prefix_is_of_a_run()
    ensures prefixes { EachPrefixIsOfARun }
{}
