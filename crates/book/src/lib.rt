// The theorems that belong to no call stand as the contracts of functions, so that the check asks for each proof and names it.
#![tactic(auto)]

ghost use Rattle.book.specs.Claim.{EveryListOfCalls};
ghost use Rattle.book.specs.Code.{EveryRun};
ghost use Rattle.book.specs.First.{FirstCycle};
ghost use Rattle.book.specs.Nacks.{NacksApart};
ghost use Rattle.book.specs.Rows.{RowsHold};
ghost use Rattle.book.specs.Samples.{ShownTracks};
ghost use Rattle.book.specs.States.{EveryRunOfStates};

// Demand 3 over runs of states, however they are stored; the two below are instances of it.
pub fn every_run_of_states()
    ensures { EveryRunOfStates }
{}

// Demand 3.
pub fn every_list_of_calls()
    ensures { EveryListOfCalls }
{}

// Demand 3 for code whose contracts cite `did`.
pub fn every_run()
    ensures { EveryRun }
{}

// 02, point 2: what is under half a cycle behind the first packet reads as earlier.
pub fn first_cycle()
    ensures { FirstCycle }
{}

// 02, point 5: the round trip that is shown, on the samples that the calls yielded.
pub fn shown_tracks()
    ensures { ShownTracks }
{}

// 02, point 6: a number is not asked for again within a millisecond while an estimate stands.
pub fn nacks_apart()
    ensures { NacksApart }
{}

// 01's examples marked P.
pub fn rows()
    ensures { RowsHold }
{}
