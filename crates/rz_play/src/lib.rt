//! What it is to play a script: which logs a script may have, whatever faults and losses come.
//!
//! Definitions alone stand here. `World` has what is there between two turns: the nodes, the export,
//! what each actor has to do, and the log. `Turns` says what one turn of an actor may be, over disks that
//! tell their texts, and `Free` what it may be over others, as real files; `Lines` what a line of a script
//! may be, and `Stops` where a line may be cut off; the answers are those of the models of a node and of
//! the export. `Played` puts the lines together. `Faults` counts, by a log, the disk faults that no `break`
//! planned, the events that a `break` should not have let pass, and the messages that were lost.
#![tactic(auto)]
