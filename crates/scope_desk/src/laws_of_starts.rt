// Laws of the start rule.
ghost use Rattle.std.specs.Prelude.{◌≡◌, List, ◌∷◌};
ghost use Rattle.scope_desk.specs.declared.tickets.Ticket.{Ticket};
ghost use Rattle.scope_desk.specs.declared.unfinished.MayStart.TheVariants.{Go};
ghost use Rattle.scope_desk.specs.Starts.{Scopes, AreByNumber, may_start};

/// The least unfinished transaction may always start.
pub fn start_laws()
    ensures { (s : Scopes) (t : Ticket) (ts : List Ticket) → AreByNumber s → s.unfinished ≡ t ∷ ts
        → may_start s t.number ≡ Go }
{}
