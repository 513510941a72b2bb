// The places of a session, as a tree: below the session and below a step stand makes, below a make its targets, below a target its steps.
// A place's number is its index in the table, where it comes after the place that it stands below.
ghost use Rattle.std.specs.Prelude.{◌≡◌, ◌<◌, ◌≤◌, Some};
ghost use Rattle.makes.specs.Machine.{ends_before};
ghost use Rattle.makes.specs.Places.{status_start, status_end, begun as status_begun, closed as status_closed, is_make, is_stand, targets_of, start_of, end_of, kind_begun, kind_declared, kind_closed, one_more, one_less};

// How far a make has come, with the numbers at which it started and ended. No `Span` in its place: the cases say which changes can follow.
#[derive(Clone, Copy, Debug, PartialEq, Eq)]
pub enum Status {
    Unstarted,
    Running { since: u32 },
    Ended { started: Option<u32>, at: u32 },
}

impl Status {
    fn span(self) -> Span
        ensures start { result.start ≡ status_start self }
        ensures end { result.end ≡ status_end self }
    {
        match self {
            Status::Unstarted => Span::default(),
            Status::Running { since } => Span {
                start: Some(since),
                end: None,
            },
            Status::Ended { started, at } => Span {
                start: started,
                end: Some(at),
            },
        }
    }

    // After the birth of a step: only the first one starts the make.
    fn begun(self, number: u32) -> Status
        ensures answer { result ≡ status_begun number self }
    {
        match self {
            Status::Unstarted => Status::Running { since: number },
            Status::Running { .. } | Status::Ended { .. } => self,
        }
    }

    // After the last death.
    fn closed(self, number: u32) -> Status
        ensures answer { result ≡ status_closed number self }
    {
        match self {
            Status::Unstarted | Status::Running { .. } => Status::Ended {
                started: self.span().start,
                at: number,
            },
            Status::Ended { .. } => self,
        }
    }
}

// When a make or a step started and ended, as far as it has.
#[derive(Clone, Copy, Debug, Default, PartialEq, Eq)]
pub struct Span {
    pub start: Option<u32>,
    pub end: Option<u32>,
}

impl Span {
    // Both at the number.
    pub fn at(number: u32) -> Span
        ensures start { result.start ≡ Some number }
        ensures end { result.end ≡ Some number }
    {
        Span {
            start: Some(number),
            end: Some(number),
        }
    }

    // Whether the end has come, and is below the start of the other.
    pub fn ends_before(self, later: Span) -> bool
        ensures answer { result ≡ ends_before self.end later.start }
    {
        matches!((self.end, later.start), (Some(end), Some(start)) if end < start)
    }
}

// A make: how far it has come, which one it is, from 0 in the order of their making, and how many targets it has declared.
#[derive(Clone, Copy, Debug, PartialEq, Eq)]
pub struct Make {
    pub status: Status,
    pub ordinal: usize,
    pub targets: usize,
}

// What a place is.
#[derive(Clone, Copy, Debug, PartialEq, Eq)]
pub enum Kind {
    Session,
    Make(Make),
    // A target: its row in the table of prerequisites.
    Target { row: usize },
    // A step: the numbers at which it started and, once it has ended, ended.
    Step { start: u32, end: Option<u32> },
}

impl Kind {
    pub fn is_make(self) -> bool
        ensures answer { result ≡ is_make self }
    {
        matches!(self, Kind::Make(_))
    }

    // Whether processes stand here: the session or a step.
    pub fn is_stand(self) -> bool
        ensures answer { result ≡ is_stand self }
    {
        matches!(self, Kind::Session | Kind::Step { .. })
    }

    pub fn span(self) -> Span
        ensures start { result.start ≡ start_of self }
        ensures end { result.end ≡ end_of self }
    {
        match self {
            Kind::Make(make) => make.status.span(),
            Kind::Step { start, end } => Span {
                start: Some(start),
                end,
            },
            Kind::Session | Kind::Target { .. } => Span::default(),
        }
    }

    // A make whose step is born.
    pub fn begun(self, number: u32) -> Kind
        ensures answer { result ≡ kind_begun number self }
    {
        match self {
            Kind::Make(make) => Kind::Make(Make {
                status: make.status.begun(number),
                ..make
            }),
            other => other,
        }
    }

    // A make with one target more.
    pub fn declared(self) -> Kind
        requires few { targets_of self ≤ 512 }
        ensures answer { result ≡ kind_declared self }
    {
        match self {
            Kind::Make(make) => Kind::Make(Make {
                targets: make.targets + 1,
                ..make
            }),
            other => other,
        }
    }

    // A make or a step at or below which the last process has died.
    fn closed(self, number: u32) -> Kind
        ensures answer { result ≡ kind_closed number self }
    {
        match self {
            Kind::Make(make) => Kind::Make(Make {
                status: make.status.closed(number),
                ..make
            }),
            Kind::Step { start, end } => Kind::Step {
                start,
                end: end.or(Some(number)),
            },
            Kind::Session | Kind::Target { .. } => self,
        }
    }
}

#[derive(Clone, Copy, Debug, PartialEq, Eq)]
pub struct Place {
    // the place right above; the session's is the session itself, and no None: only a walk that ends there would ask, and it looks at the
    // place's number
    pub parent: usize,
    // how many makes hold this place
    pub depth: usize,
    // how many live processes are at or below it, a make's own process among them
    pub live: usize,
    pub kind: Kind,
}

impl Place {
    // One live process more.
    pub fn one_more(self) -> Place
        requires few { self.live ≤ 4096 }
        ensures answer { result ≡ one_more self }
    {
        Place {
            live: self.live + 1,
            ..self
        }
    }

    // One live process less: with the last one a make or a step ends.
    pub fn one_less(self, number: u32) -> Place
        requires some { 0 < self.live }
        ensures answer { result ≡ one_less number self }
    {
        let live = self.live - 1;
        let kind = if live == 0 {
            self.kind.closed(number)
        } else {
            self.kind
        };
        Place { live, kind, ..self }
    }
}
