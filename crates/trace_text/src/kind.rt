//! The kinds of events, and their names.

ghost use Rattle.std.specs.Prelude.{◌≡◌, MatchOption};
ghost use Rattle.events.specs.Events.{event as event_of};
ghost use Rattle.trace_text.specs.Kinds.{kind_name, kind_of};
ghost use Rattle.trace_text.specs.Table.{left_in};
ghost use Rattle.trace_text.specs.declared.kind.EventKind.{EventKind as AnyKind};

use events::event::Event;

/// The kind of an event.
#[derive(Clone, Copy, PartialEq, Eq, Debug)]
pub enum EventKind {
    /// `take`, as of `take 1 0.2`
    Take,
    /// `steal`, as of `steal 1 0 0.2`
    Steal,
    /// `step`, as of `step 0.1`
    Step,
    /// `replenish`, as of `replenish 0.1`
    Replenish,
    /// `spawn`, as of `spawn 0`
    Spawn,
    /// `open`, as of `open 0`
    Open,
    /// `park`, as of `park 0`
    Park,
    /// `end`, as of `end 0.1`
    End,
    /// `pass`, as of `pass 0#1`
    Pass,
    /// `resume`, as of `resume 0 0`
    Resume,
}

impl EventKind {
    /// Returns the kind of an event.
    pub fn of(event: &Event) -> EventKind
        ensures { result ≡ kind_of (event_of event.now) }
    {
        match event {
            Event::Take { .. } => EventKind::Take,
            Event::Steal { .. } => EventKind::Steal,
            Event::Step { .. } => EventKind::Step,
            Event::Replenish { .. } => EventKind::Replenish,
            Event::Spawn { .. } => EventKind::Spawn,
            Event::Open { .. } => EventKind::Open,
            Event::Park { .. } => EventKind::Park,
            Event::End { .. } => EventKind::End,
            Event::Pass { .. } => EventKind::Pass,
            Event::Resume { .. } => EventKind::Resume,
        }
    }

    /// Returns its name.
    pub fn name(self) -> &'static str
        ensures { result.now ≡ kind_name self }
    {
        match self {
            EventKind::Take => "take",
            EventKind::Steal => "steal",
            EventKind::Step => "step",
            EventKind::Replenish => "replenish",
            EventKind::Spawn => "spawn",
            EventKind::Open => "open",
            EventKind::Park => "park",
            EventKind::End => "end",
            EventKind::Pass => "pass",
            EventKind::Resume => "resume",
        }
    }

    /// Returns its name, padded with spaces to the width of its column in the table.
    pub fn in_column(self) -> &'static str
        ensures { result.now ≡ left_in 9 (kind_name self) }
    {
        match self {
            EventKind::Take => "take     ",
            EventKind::Steal => "steal    ",
            EventKind::Step => "step     ",
            EventKind::Replenish => "replenish",
            EventKind::Spawn => "spawn    ",
            EventKind::Open => "open     ",
            EventKind::Park => "park     ",
            EventKind::End => "end      ",
            EventKind::Pass => "pass     ",
            EventKind::Resume => "resume   ",
        }
    }

    /// Returns the kind with this name.
    pub fn named(name: &str) -> Option<EventKind>
        ensures { MatchOption result ((k : AnyKind) → name.now ≡ kind_name k → ⊥)
            (λ k. name.now ≡ kind_name k) }
    {
        match name {
            "take" => Some(EventKind::Take),
            "steal" => Some(EventKind::Steal),
            "step" => Some(EventKind::Step),
            "replenish" => Some(EventKind::Replenish),
            "spawn" => Some(EventKind::Spawn),
            "open" => Some(EventKind::Open),
            "park" => Some(EventKind::Park),
            "end" => Some(EventKind::End),
            "pass" => Some(EventKind::Pass),
            "resume" => Some(EventKind::Resume),
            _ => None,
        }
    }
}
