//! What is kept of the scopes round a place.

ghost use Rattle.std.specs.Prelude.{◌≡◌, []};
ghost use Rattle.jt_places.specs.Standings.{standing_of, within};

use jt_outline::ScopeKind;

/// What is kept of the scopes round a place. A scope's depth is how many scopes there are up to it.
#[derive(Clone, Copy)]
pub(crate) struct Standing {
    /// How many variables the function, task's body or script has, with those of the loops round the
    /// place.
    pub room: usize,
    /// The depth of the scope of the innermost function or task's body or of the script, 0 where there
    /// is none.
    pub begin: usize,
    /// The depth of the innermost function's scope, 0 where there is none.
    pub function: usize,
    /// The depth of the scope of the innermost task's body, 0 where there is none.
    pub task: usize,
    /// Whether the innermost scope but for those of `@sync` is a loop's.
    pub repeats: bool,
    pub in_script: bool,
    pub in_loop: bool,
    pub in_function: bool,
    pub is_awaited: bool,
    pub is_synced: bool,
}

impl Standing {
    /// That outside all scopes.
    pub(crate) fn outside() -> Standing
        ensures { result ≡ standing_of [] }
    {
        Standing {
            room: 0,
            begin: 0,
            function: 0,
            task: 0,
            repeats: false,
            in_script: false,
            in_loop: false,
            in_function: false,
            is_awaited: false,
            is_synced: false,
        }
    }

    /// That within one scope more, which has this kind and depth, where the variables up to it are so
    /// many.
    pub(crate) fn within(self, kind: ScopeKind, depth: usize, room: usize) -> Standing
        ensures { result ≡ within kind self depth room }
    {
        let own = Standing {
            room,
            begin: depth,
            repeats: false,
            in_script: false,
            in_loop: false,
            in_function: true,
            is_awaited: false,
            ..self
        };
        match kind {
            ScopeKind::Script => Standing {
                in_script: true,
                in_function: false,
                ..own
            },
            ScopeKind::Function => Standing {
                function: depth,
                is_synced: false,
                ..own
            },
            ScopeKind::Task => Standing {
                task: depth,
                is_awaited: self.is_synced,
                ..own
            },
            ScopeKind::Loop => Standing {
                room,
                repeats: true,
                in_script: false,
                in_loop: true,
                ..self
            },
            ScopeKind::Sync => Standing {
                room,
                in_loop: false,
                in_function: false,
                is_awaited: true,
                is_synced: true,
                ..self
            },
        }
    }
}
