//! The sums of a log, added while it is read, its pieces side by side.
ghost use Rattle.std.specs.Prelude.{◌≡◌, ◌<◌, ◌+◌, ◌++◌, [], List, Result, map, length, slice_get, IfOk, IfErr, OnOk, IsPermutation};
ghost use Rattle.std.specs.FinMap.{find};
ghost use Rattle.std.specs.List.{AllByRecursion};
ghost use Rattle.std.specs.Thread.{IsSync};
ghost use Rattle.sb_check.specs.CheckedView.{checked_of};
ghost use Rattle.sb_check.specs.Log.{LogFault, Logged, log_of, logged_of, records_of};
ghost use Rattle.sb_check.specs.Programs.{CheckedProgram};
ghost use Rattle.sb_check.specs.declared.log.LogError.TheVariants.{NoMemory};
ghost use Rattle.sb_feed.specs.Jobs.{AreValid};
ghost use Rattle.sb_feed.specs.Keys.{key_order};
ghost use Rattle.sb_feed.specs.declared.key.KeyBytes.{KeyBytes as Key};
ghost use Rattle.sb_job.specs.Sums.{AreKeySums, HasKeySums};
ghost use Rattle.sb_kind.specs.declared.agg.Agg.{Agg as Element};
ghost use Rattle.sb_log.specs.Reader.{left_of, program_of};
ghost use Rattle.sb_log.specs.Reading.{GivesLog, onto_log};
ghost use Rattle.sb_plan.specs.Given.{fed_at, let_values, planned};
ghost use Rattle.sb_plan.specs.PathSteps.{plan_costs};
ghost use Rattle.sb_plan.specs.Plans.{plan_value};
ghost use Rattle.sb_plan.specs.Runners.{AreStores, kind_monoid};
ghost use Rattle.sb_plan.specs.Steps.{record_steps, steps_by};
ghost use Rattle.sb_run.specs.Batching.{AreSummed, GivesSums, IsFedTo, all_values, keyed, stores, values_of};
ghost use Rattle.sb_service.specs.Rows.{Rows};
ghost use Rattle.sb_service.specs.Views.{view_service};
ghost use Rattle.sb_text.specs.Lines.{lines_from};
ghost use Rattle.sb_types.specs.ValView.{value_of};

use sb_check::{Checked, LogError};
use sb_feed::{Family, KeyBytes, RowList};
use sb_job::{KeySums, Seed, halvings};
use sb_kind::Agg;
use sb_laws::Steps;
use sb_log::{Piece, Records};
use sb_plan::{Plan, Runner, plan_of};
use sb_service::Service;
use sb_text::{NoMemory, Text};
use sb_types::{LogRecord, Val};
use std::alloc::Global;
use std::marker::Brand;
use std::random::RandomSource;
use std::sync::ledger::{Blank, Ledger};
use std::thread::{Threads, join};

/// The sum of each key of each store over the log of a text. The log is folded while it is read, in as many pieces as there
/// are processors.
pub fn sum_log<R: Threads + RandomSource + Sync>(
    rt: &R,
    alloc: Global,
    c: &Checked,
    runner: &Runner,
    services: &[Service],
    log: &[u8],
) -> Result<RowList<Agg>, LogError>
    requires stores { AreStores (checked_of c.now) kind_monoid runner.now }
    ensures { GivesLog (λ records. AreKeySums (stores runner.now) (all_values (checked_of c.now)
        (map view_service services.now) records)) (log_of (checked_of c.now) log.now) result }
{
    let sums = add_text(rt, alloc, c, runner, services, log)?;
    rows_of(alloc, sums)
}

// The sums as rows.
fn rows_of(alloc: Global, sums: KeySums<Agg>) -> Result<RowList<Agg>, LogError>
    ensures ok { IfOk result (λ rows. IsPermutation sums rows × ((q : Key)
        → find key_order q rows ≡ find key_order q sums)) }
    ensures err { IfErr result (λ e. e ≡ NoMemory) }
{
    match sums.into_rows(alloc) {
        Ok(rows) => Ok(rows),
        Err(_) => Err(LogError::NoMemory),
    }
}

// Adds the records of a text. One with too many lines is read from its front, for the first bad line.
fn add_text<R: Threads + RandomSource + Sync>(
    rt: &R,
    alloc: Global,
    c: &Checked,
    runner: &Runner,
    services: &[Service],
    log: &[u8],
) -> Result<KeySums<Agg>, LogError>
    requires stores { AreStores (checked_of c.now) kind_monoid runner.now }
    ensures { GivesLog (AreSummed (checked_of c.now) (map view_service services.now) runner.now)
        (log_of (checked_of c.now) log.now) result }
{
    let Ok(piece) = Piece::whole(log) else {
        return Err(LogError::NoMemory);
    };
    let seed = Seed::drawn(rt);
    if !piece.fits() {
        return add_records(alloc, c, runner, services, Records::new(c, log), seed);
    }
    let Piece {
        before,
        lines,
        bytes,
    } = piece;
    add_halves(
        rt,
        alloc,
        c,
        runner,
        services,
        before,
        lines,
        bytes,
        halvings(rt),
        seed,
    )
}

// Adds the lines of a piece, halved so often: those of the first half and of the second side by side, and then the sums of the
// second behind those of the first. The piece is lent by its parts, since a closure over a `Piece` promises nothing.
#[cycle(halves)]
fn add_halves<R: Threads + Sync>(
    rt: &R,
    alloc: Global,
    c: &Checked,
    runner: &Runner,
    services: &[Service],
    before: u64,
    lines: u64,
    bytes: &[u8],
    depth: u32,
    seed: Seed,
) -> Result<KeySums<Agg>, LogError>
    requires stores { AreStores (checked_of c.now) kind_monoid runner.now }
    requires piece { lines ≡ length (lines_from (before + 1) bytes.now) }
    ensures { GivesSums (checked_of c.now) (map view_service services.now) runner.now
        (records_of (checked_of c.now) (lines_from (before + 1) bytes.now)) result }
{
    let piece = Piece {
        before,
        lines,
        bytes,
    };
    if depth == 0 {
        return add_records(
            alloc,
            c,
            runner,
            services,
            Records::of_piece(c, piece),
            seed,
        );
    }
    let Ok((first, second)) = piece.split(bytes.len() / 2) else {
        return Err(LogError::NoMemory);
    };
    let (start, count, first) = (first.before, first.lines, first.bytes);
    let (behind, rest, second) = (second.before, second.lines, second.bytes);
    let less = depth - 1;
    let (first, second) = join(
        rt,
        || -> Result<KeySums<Agg>, LogError>
            requires { IsSync R.row × AreStores (checked_of c.now) kind_monoid runner.now
                × (count ≡ length (lines_from (start + 1) first.now)) }
            ensures { GivesSums (checked_of c.entry.now) (map view_service services.entry.now)
                runner.entry.now (records_of (checked_of c.entry.now)
                (lines_from (start + 1) first.entry.now)) result }
        {
            add_halves(
                rt, alloc, c, runner, services, start, count, first, less, seed,
            )
        },
        || -> Result<KeySums<Agg>, LogError>
            requires { IsSync R.row × AreStores (checked_of c.now) kind_monoid runner.now
                × (rest ≡ length (lines_from (behind + 1) second.now)) }
            ensures { GivesSums (checked_of c.entry.now) (map view_service services.entry.now)
                runner.entry.now (records_of (checked_of c.entry.now)
                (lines_from (behind + 1) second.entry.now)) result }
        {
            add_halves(
                rt, alloc, c, runner, services, behind, rest, second, less, seed,
            )
        },
    );
    add_behind(alloc, runner, first, second)
}

// The sums of a log, and of what stands behind it. The first fault is that of both.
fn add_behind(
    alloc: Global,
    runner: &Runner,
    first: Result<KeySums<Agg>, LogError>,
    second: Result<KeySums<Agg>, LogError>,
) -> Result<KeySums<Agg>, LogError>
    requires first { IfOk first (AreValid (stores runner.now)) }
    requires second { IfOk second (AreValid (stores runner.now)) }
    ensures { (c : CheckedProgram) (services : List Rows) (a b : Result (List Logged) LogFault)
        → GivesLog (AreSummed c services runner.now) a first
        → GivesLog (AreSummed c services runner.now) b second
        → GivesLog (AreSummed c services runner.now) (onto_log a b) result }
{
    let mut sums = first?;
    let more = second?;
    match sums.add_sums(alloc, runner, more) {
        Ok(()) => Ok(sums),
        Err(_) => Err(LogError::NoMemory),
    }
}

// Each value is added on the right of its key's sum, record by record, as they are read.
fn add_records(
    alloc: Global,
    c: &Checked,
    runner: &Runner,
    services: &[Service],
    records: Records<'_>,
    seed: Seed,
) -> Result<KeySums<Agg>, LogError>
    requires stores { AreStores (checked_of c.now) kind_monoid runner.now }
    requires program { program_of records ≡ checked_of c.now }
    ensures { GivesLog (AreSummed (checked_of c.now) (map view_service services.now) runner.now)
        (left_of records.entry) result }
{
    match plan_of(alloc, c) {
        Ok(plan) => add_by_plan(alloc, c, runner, &plan, services, records, seed),
        Err(_) => Err(LogError::NoMemory),
    }
}

fn add_by_plan(
    alloc: Global,
    c: &Checked,
    runner: &Runner,
    plan: &Plan<'_>,
    services: &[Service],
    records: Records<'_>,
    seed: Seed,
) -> Result<KeySums<Agg>, LogError>
    requires stores { AreStores (checked_of c.now) kind_monoid runner.now }
    requires plan { plan_value plan.now ≡ planned (checked_of c.now) }
    requires program { program_of records ≡ checked_of c.now }
    ensures { GivesLog (AreSummed (checked_of c.now) (map view_service services.now) runner.now)
        (left_of records.entry) result }
{
    add_counted::<Brand>(
        alloc,
        c,
        runner,
        plan,
        services,
        records,
        seed,
        Blank::new(1),
    )
}

fn add_counted<L: Ledger>(
    alloc: Global,
    c: &Checked,
    runner: &Runner,
    plan: &Plan<'_>,
    services: &[Service],
    mut records: Records<'_>,
    seed: Seed,
    blank: Blank,
) -> Result<KeySums<Agg>, LogError>
    requires stores { AreStores (checked_of c.now) kind_monoid runner.now }
    requires plan { plan_value plan.now ≡ planned (checked_of c.now) }
    requires program { program_of records ≡ checked_of c.now }
    requires name { blank.name ≡ L.name }
    requires parts { (blank.parts ≡ L.parts) × (0 < blank.parts) }
    ensures { GivesLog (AreSummed (checked_of c.now) (map view_service services.now) runner.now)
        (left_of records.entry) result }
{
    let (book, share) = blank.open::<L>();
    let mut steps = Steps::new(book, share);
    let mut sums = KeySums::seeded(alloc, seed);
    let mut fed = Vec::new(alloc);
    while let Some(logged) = records.next_record(alloc)? {
        let added = add_record(
            alloc, c, runner, plan, &logged, services, &mut fed, &mut sums, &mut steps,
        );
        let Ok(()) = added else {
            return Err(LogError::NoMemory);
        };
    }
    Ok(sums)
}

// Adds what a record feeds to the stores, store by store. What waits in between has room that is used again.
fn add_record<L: Ledger>(
    alloc: Global,
    c: &Checked,
    runner: &Runner,
    plan: &Plan<'_>,
    logged: &LogRecord,
    services: &[Service],
    fed: &mut Vec<(Text, Agg)>,
    sums: &mut KeySums<Agg>,
    steps: &mut Steps<L>,
) -> Result<(), NoMemory>
    requires stores { AreStores (checked_of c.now) kind_monoid runner.now }
    requires plan { plan_value plan.now ≡ planned (checked_of c.now) }
    requires none { fed.old.items ≡ [] }
    requires valid { AreValid (stores runner.now) sums.old }
    ensures none { OnOk result (fed.new.items ≡ []) }
    ensures valid { OnOk result (AreValid (stores runner.now) sums.new) }
    ensures fed { OnOk result (AreValid (stores runner.now) (values_of (planned (checked_of c.now))
        (map view_service services.now) (logged_of logged.now))) }
    ensures sums { OnOk result ((values : List (Key × Element))
        → HasKeySums (stores runner.now) values sums.old
        → HasKeySums (stores runner.now) (values ++ values_of (planned (checked_of c.now))
        (map view_service services.now) (logged_of logged.now)) sums.new) }
    ensures counted { OnOk result (steps.new ≡ steps.old + record_steps (plan_costs plan.now)
        (map view_service services.now) (logged_of logged.now)) }
{
    let lets = plan.let_values(alloc, logged, services, steps)?;
    for store in 0..runner.stores() {
        add_store(
            alloc, c, runner, plan, logged, services, &lets, store, fed, sums, steps,
        )?;
    }
    Ok(())
}

fn add_store<L: Ledger>(
    alloc: Global,
    c: &Checked,
    runner: &Runner,
    plan: &Plan<'_>,
    logged: &LogRecord,
    services: &[Service],
    lets: &[Vec<Val>],
    store: u32,
    fed: &mut Vec<(Text, Agg)>,
    sums: &mut KeySums<Agg>,
    steps: &mut Steps<L>,
) -> Result<(), NoMemory>
    requires stores { AreStores (checked_of c.now) kind_monoid runner.now }
    requires plan { plan_value plan.now ≡ planned (checked_of c.now) }
    requires lets { map (λ l. map value_of l.items) lets.now
        ≡ let_values (planned (checked_of c.now)) (logged_of logged.now)
        (map view_service services.now) }
    requires store { store < length runner.now.monoids }
    requires none { fed.old.items ≡ [] }
    requires valid { AreValid (stores runner.now) sums.old }
    ensures none { OnOk result (fed.new.items ≡ []) }
    ensures valid { OnOk result (AreValid (stores runner.now) sums.new) }
    ensures fed { OnOk result (AreValid (stores runner.now) (map (keyed store)
        (fed_at (planned (checked_of c.now)) (map view_service services.now) store
        (logged_of logged.now)))) }
    ensures sums { OnOk result ((values : List (Key × Element))
        → HasKeySums (stores runner.now) values sums.old
        → HasKeySums (stores runner.now) (values ++ map (keyed store)
        (fed_at (planned (checked_of c.now)) (map view_service services.now) store
        (logged_of logged.now))) sums.new) }
    ensures counted { OnOk result (steps.new ≡ steps.old
        + steps_by (slice_get (plan_costs plan.now).stores store) (logged_of logged.now)
        (map view_service services.now) (map (λ l. map value_of l.items) lets.now)) }
{
    plan.feed(alloc, logged, services, lets, store, fed, steps)?;
    add_fed(alloc, runner, store, fed, sums)
}

fn add_fed(
    alloc: Global,
    runner: &Runner,
    store: u32,
    fed: &mut Vec<(Text, Agg)>,
    sums: &mut KeySums<Agg>,
) -> Result<(), NoMemory>
    requires store { store < length runner.now.monoids }
    requires values { AllByRecursion (IsFedTo runner.now store) fed.old.items }
    requires valid { AreValid (stores runner.now) sums.old }
    ensures none { OnOk result (fed.new.items ≡ []) }
    ensures valid { OnOk result (AreValid (stores runner.now) sums.new) }
    ensures sums { OnOk result ((values : List (Key × Element))
        → HasKeySums (stores runner.now) values sums.old
        → HasKeySums (stores runner.now) (values ++ map (keyed store) fed.old.items) sums.new) }
{
    for one in fed.drain(..) {
        let (text, value) = one;
        sums.add(alloc, runner, KeyBytes { store, text }, value)?;
    }
    Ok(())
}
