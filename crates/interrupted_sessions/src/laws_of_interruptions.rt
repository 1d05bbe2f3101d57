// The laws of interrupted sessions.
ghost use Rattle.std.specs.Prelude.{◌≡◌, ℕ, List, [], ◌∷◌, ◌++◌, Option, Some, false, true};
ghost use Rattle.idb_schema.specs.Schemas.{SchemaData};
ghost use Rattle.idb_calls.specs.Deltas.{DeltaTree};
ghost use Rattle.idb_calls.specs.declared.traces.Outcome.{Outcome};
ghost use Rattle.item_changes.specs.Items.{Items};
ghost use Rattle.item_changes.specs.Scopes.{part_of};
ghost use Rattle.log_history.specs.Batching.{Commit};
ghost use Rattle.log_history.specs.Kept.{End, with_doubt};
ghost use Rattle.report_lines.specs.declared.reports.Report.{Report};
ghost use Rattle.client_machine.specs.FinishEntries.{scope_of_body};
ghost use Rattle.client_machine.specs.SerialRuns.{RunsOn};
ghost use Rattle.script_statements.specs.declared.script.ScriptSession.{ScriptSession};
ghost use Rattle.script_handlers.specs.Handling.{ScriptReacts, ScriptWrites};
ghost use Rattle.legal_sessions.specs.Legal.{is_in_doubt, may_write, IsLegalReport, records_logged, records_in_doubt, commits_at};
ghost use Rattle.session_states.specs.Sessions.{SessionNow};
ghost use Rattle.session_states.specs.Telling.{RunningTx};
ghost use Rattle.session_states.specs.UnderWay.{IsUnderWay};
ghost use Rattle.session_states.specs.Moves.{entry_ran};
ghost use Rattle.interrupted_sessions.specs.Interrupted.{HasCommits};

/// The laws of interrupted sessions. Wherever a session under way is interrupted, its commits are those of so much of a legal session;
/// so they are with that of the transaction that runs, once it has run whole, in doubt only where it may write; and so they are of a session that came to its end.
pub fn interruption_laws()
    ensures between { (session : ScriptSession) (opening : Items) (now : SessionNow)
        (running : Option RunningTx)
        → IsUnderWay session opening now running → HasCommits session opening now.commits now.doubts }
    ensures at_end { (session : ScriptSession) (opening : Items) (now : SessionNow) (t : RunningTx)
        (changes : List DeltaTree) (kept : Option SchemaData) (outcome : Outcome)
        → IsUnderWay session opening now (Some t)
        → RunsOn ScriptReacts ScriptWrites (part_of (scope_of_body t.body) now.items)
        t.body t.turns changes kept false outcome
        → (is_in_doubt outcome ≡ true → may_write t.body ≡ true)
        → HasCommits session opening
        (now.commits ++ commits_at now.run.order (records_logged (entry_ran t changes kept outcome ∷ [])))
        (now.doubts ++ commits_at now.run.order (records_in_doubt (entry_ran t changes kept outcome ∷ []))) }
    ensures whole { (session : ScriptSession) (number : ℕ) (opening : Items) (report : Report)
        (commits : List Commit) (log_end : End) (closing : Items)
        → IsLegalReport session number opening report commits log_end closing
        → HasCommits session opening commits (with_doubt [] log_end) }
{}
