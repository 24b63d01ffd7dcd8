//! When the shared server is sound over the words of its region, and what keeps it so: functions with no code, of which the contract is the law.
#![tactic(auto)]

ghost use Rattle.std.specs.Prelude.{ℕ, List};
ghost use Rattle.qc_sound.specs.Moment.{at_rest};
ghost use Rattle.qc_sound.specs.Handed.{PinsAll, GivesAll};
ghost use Rattle.qc_sound.specs.Laws.{Within, FitsOn, FillsFree, FillsApart, TasksApart, Once};
ghost use Rattle.qc_sound.specs.NewServer.{NewIsSound};
ghost use Rattle.qc_sound.specs.Room.{AreFew, Crowds, HasNoFill, LacksRoomThen, PrunesOldest};
ghost use Rattle.qc_sound.specs.steps.Events.{QuietSteps};
ghost use Rattle.qc_sound.specs.steps.Leaving.{CommitSteps, GoneLists, GoneSteps, LeavesKeepTasks, LeaveSteps, PruneSteps, ResetSteps};
ghost use Rattle.qc_sound.specs.steps.Hits.{HitLists, HitSteps};
ghost use Rattle.qc_sound.specs.steps.Ending.{SeatSteps, StrikeLists, StrikeSteps};
ghost use Rattle.qc_sound.specs.steps.Holding.{HoldSteps, StoreSteps};
ghost use Rattle.qc_sound.specs.steps.Starts.{StartLists, StartSteps};
ghost use Rattle.qc_sound.specs.steps.Growing.{GrowLists, GrowSteps};
ghost use Rattle.qc_sound.specs.steps.Done.{CutsSpell, DoneLists, DoneSteps};
ghost use Rattle.qc_sound.specs.steps.Moving.{MoveLists, MovesSpell, MovesTiles, MoveSteps};

/// The laws that the lock asks for.
pub fn kept_laws()
    ensures within { (hash : List ℕ → ℕ) → Within (at_rest hash) }
    ensures fits_on { (hash : List ℕ → ℕ) → FitsOn (at_rest hash) }
    ensures fills_free { (hash : List ℕ → ℕ) → FillsFree (at_rest hash) }
    ensures fills_apart { (hash : List ℕ → ℕ) → FillsApart (at_rest hash) }
    ensures tasks_apart { (hash : List ℕ → ℕ) → TasksApart (at_rest hash) }
    ensures once { (hash : List ℕ → ℕ) → Once (at_rest hash) }
{}

/// What keeps a server sound: each call as one or more of these steps.
pub fn steps()
    ensures quiet { QuietSteps }
    ensures leaves { LeaveSteps }
    ensures commits { CommitSteps }
    ensures prunes { PruneSteps }
    ensures resets { ResetSteps }
    ensures hits { HitSteps }
    ensures strikes { StrikeSteps }
    ensures seats { SeatSteps }
    ensures holds { HoldSteps }
    ensures stores { StoreSteps }
    ensures starts { StartSteps }
    ensures grows { GrowSteps }
    ensures done { DoneSteps }
    ensures gone { GoneSteps }
    ensures moves { MoveSteps }
{}

/// What is listed for the seats after each step.
pub fn listings()
    ensures leaves { LeavesKeepTasks }
    ensures hits { HitLists }
    ensures strikes { StrikeLists }
    ensures starts { StartLists }
    ensures grows { GrowLists }
    ensures done { DoneLists }
    ensures gone { GoneLists }
    ensures moves { MoveLists }
{}

/// Where every free block is small, the region is crowded.
pub fn small_blocks_crowd()
    ensures { Crowds }
{}

/// What a sound server shows of licences.
pub fn licences()
    ensures room { LacksRoomThen }
    ensures prune { PrunesOldest }
    ensures no_fill { HasNoFill }
{}

/// How many blocks and tasks there are at most.
pub fn blocks_are_few()
    ensures { AreFew }
{}

/// A chain that is cut to its bytes spells them still.
pub fn cuts_spell()
    ensures { CutsSpell }
{}

/// What the move of the lowest movable block makes of the tiles, and that each block spells what it spelled where its words were carried along.
pub fn block_moves()
    ensures tiles { MovesTiles }
    ensures spell { MovesSpell }
{}

/// What is handed out and pinned after blocks were pinned, or given back.
pub fn handed_out_blocks()
    ensures pins { PinsAll }
    ensures gives { GivesAll }
{}

/// A new server is sound over words that are all 0.
pub fn new_server_is_sound()
    ensures { NewIsSound }
{}
