//! Laws of the definitions, each on a function that does nothing.
ghost use Rattle.std.specs.Prelude.{◌≡◌, ℕ, List};
ghost use Rattle.sb_kind.specs.declared.agg.Agg.{Agg};
ghost use Rattle.sb_report.specs.declared.script.Ask.{Ask};
ghost use Rattle.sb_run.specs.Run.{Run};
ghost use Rattle.sb_run.specs.ScriptOutput.{run_text};
ghost use Rattle.sb_run.specs.Settled.{serial, IsSettled};

/// What a run without workers writes is a settled transcript.
pub fn script_output_is_transcript()
    ensures { (run : Run Agg) (asks : List Ask) → IsSettled serial run asks (run_text run asks) }
{}

/// What a run without workers writes is the same for every number of shards.
pub fn shards_are_not_written()
    ensures { (run : Run Agg) (shards : ℕ) (asks : List Ask)
        → run_text (record run { places = record run.places { shards = shards } }) asks
        ≡ run_text run asks }
{}
