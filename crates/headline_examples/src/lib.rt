//! Worked rows of the headline, computed: the lines of runs as transcripts whose histories are legal and kept; and with their writes, over logs of eight slots, what
//! recoveries keep, what a stop leaves at each prefix, and the order of writes, with rows that are refused; and the same of a run of the core that is computed.
#![tactic(auto)]
