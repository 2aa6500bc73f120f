// The laws of the store's calls, for whoever reasons about many of them.
ghost use Rattle.store.specs.Laws.{HoldLaw, CommitLaw, QueueLaw, QueueFramedLaw, NextLaw, DiscardLaw, Lengthening, Refusing};

// The store keeps these laws whatever it holds.
pub fn store_laws()
    ensures hold { HoldLaw }
    ensures commit { CommitLaw }
    ensures queue { QueueLaw }
    ensures queue_framed { QueueFramedLaw }
    ensures next { NextLaw }
    ensures discard { DiscardLaw }
    ensures lengthening { Lengthening }
    ensures refusing { Refusing }
{}
