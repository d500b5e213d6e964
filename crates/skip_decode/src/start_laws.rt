//! A theorem on starts: they open no fragment. The function does nothing: its contract is the theorem.

ghost use Rattle.std.specs.Prelude.{List, ℕ, Option, None};
ghost use Rattle.acl_outside.specs.Outside.{StoreRead};
ghost use Rattle.fragment_open.specs.CallReads.{Told};
ghost use Rattle.fragment_open.specs.Settled.{Settled};
ghost use Rattle.fragment_open.specs.Starting.{IsStarted};
ghost use Rattle.merkle_chunks.specs.declared.header.Header.{Header};
ghost use Rattle.skip_decode.specs.CheckedStream.{OpenedNone};

/// An opener that was just started has opened no fragment, as [`SkipStart::over`](crate::SkipStart::over) and
/// [`SkipWalk::start`](crate::SkipWalk::start) require. The first clause goes with
/// [`Opener::start`](fragment_open::Opener::start), and the second with [`begin`](fragment_open::begin).
pub fn starts_open_no_fragment()
    ensures started { (before after : Option (List StoreRead)) (header : Header) (top : List ℕ)
        → Told before after (IsStarted header top) → OpenedNone after }
    ensures settled { (served : Option (List StoreRead)) (header : Header) (top : List ℕ)
        → Settled served header top None None → OpenedNone served }
{}
