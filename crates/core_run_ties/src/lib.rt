//! What else stands beside each moment of a run of the core than the step law over runs says by itself. Definitions alone.
#![tactic(auto)]
