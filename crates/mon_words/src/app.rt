//! The words behind each command, as clap is told of them.
ghost use Rattle.std.specs.Prelude.{◌≡◌, ℕ, List, [], IfOk, codes, bytes_eq, true, false};
ghost use Rattle.clap.specs.Built.{IsPlainArg, TakesValue};
ghost use Rattle.clap.specs.Words.{app_of, args_of, rule_of};
ghost use Rattle.mon_words.specs.Apps.{bare_app, central_app, check_app, child_app, drill_app, generate_app, made_ids, measure_app, name_rule, option_rule, place_app, sketch_ids, solve_ids, total_app, trace_ids, with_made_options, with_name, with_option, with_sketch_options, with_solve_options, with_trace_options};
ghost use Rattle.mon_words.specs.Needs.{AreOther, IsFresh, IsStrict, Needs};

use clap::{Arg, ArgAction, Command};
use std::alloc::{AllocError, Global};

/// The words behind `total`.
#[tactic(auto, unfolding(crate::specs::Apps::total_app))]
pub(crate) fn total_app<'a>(alloc: Global) -> Result<Command<'a>, AllocError>
    ensures app { IfOk result (λ app. app_of app ≡ total_app) }
    ensures strict { IfOk result IsStrict }
    ensures needs { IfOk result (Needs (codes "TRACE")) }
{
    with_name(alloc, bare_app(alloc, "total"), "TRACE")
}

/// The words behind `central`.
#[tactic(auto, unfolding(crate::specs::Apps::central_app))]
pub(crate) fn central_app<'a>(alloc: Global) -> Result<Command<'a>, AllocError>
    ensures app { IfOk result (λ app. app_of app ≡ central_app) }
    ensures strict { IfOk result IsStrict }
    ensures needs { IfOk result (Needs (codes "TRACE")) }
{
    let app = with_name(alloc, bare_app(alloc, "central"), "TRACE")?;
    let app = with_sketch_options(alloc, app)?;
    let app = with_trace_options(alloc, app)?;
    let app = with_option(alloc, app, "topology")?;
    Ok(app)
}

/// The words behind `measure`.
#[tactic(auto, unfolding(crate::specs::Apps::measure_app))]
pub(crate) fn measure_app<'a>(alloc: Global) -> Result<Command<'a>, AllocError>
    ensures app { IfOk result (λ app. app_of app ≡ measure_app) }
    ensures strict { IfOk result IsStrict }
    ensures topology { IfOk result (Needs (codes "TOPOLOGY")) }
    ensures trace { IfOk result (Needs (codes "TRACE")) }
{
    let app = with_name(alloc, bare_app(alloc, "measure"), "TOPOLOGY")?;
    let app = with_name(alloc, app, "TRACE")?;
    let app = with_sketch_options(alloc, app)?;
    let app = with_trace_options(alloc, app)?;
    let app = with_solve_options(alloc, app)?;
    Ok(app)
}

/// The words behind `place`.
#[tactic(auto, unfolding(crate::specs::Apps::place_app))]
pub(crate) fn place_app<'a>(alloc: Global) -> Result<Command<'a>, AllocError>
    ensures app { IfOk result (λ app. app_of app ≡ place_app) }
    ensures strict { IfOk result IsStrict }
    ensures needs { IfOk result (Needs (codes "TOPOLOGY")) }
{
    let app = with_name(alloc, bare_app(alloc, "place"), "TOPOLOGY")?;
    let app = with_solve_options(alloc, app)?;
    Ok(app)
}

/// The words behind `check`.
#[tactic(auto, unfolding(crate::specs::Apps::check_app))]
pub(crate) fn check_app<'a>(alloc: Global) -> Result<Command<'a>, AllocError>
    ensures app { IfOk result (λ app. app_of app ≡ check_app) }
    ensures strict { IfOk result IsStrict }
    ensures topology { IfOk result (Needs (codes "TOPOLOGY")) }
    ensures tree { IfOk result (Needs (codes "TREE")) }
{
    let app = with_name(alloc, bare_app(alloc, "check"), "TOPOLOGY")?;
    with_name(alloc, app, "TREE")
}

/// The words behind `child`: none.
#[tactic(auto, unfolding(crate::specs::Apps::child_app))]
pub(crate) fn child_app<'a>(alloc: Global) -> Result<Command<'a>, AllocError>
    ensures app { IfOk result (λ app. app_of app ≡ child_app) }
    ensures strict { IfOk result IsStrict }
{
    Ok(bare_app(alloc, "child"))
}

/// The words behind `generate`.
#[tactic(auto, unfolding(crate::specs::Apps::generate_app))]
pub(crate) fn generate_app<'a>(alloc: Global) -> Result<Command<'a>, AllocError>
    ensures app { IfOk result (λ app. app_of app ≡ generate_app) }
    ensures strict { IfOk result IsStrict }
    ensures needs { IfOk result (Needs (codes "PART")) }
{
    let app = with_name(alloc, bare_app(alloc, "generate"), "PART")?;
    let app = with_option(alloc, app, "seed")?;
    let app = with_made_options(alloc, app)?;
    Ok(app)
}

/// The words behind `drill`: options alone.
#[tactic(auto, unfolding(crate::specs::Apps::drill_app))]
pub(crate) fn drill_app<'a>(alloc: Global) -> Result<Command<'a>, AllocError>
    ensures app { IfOk result (λ app. app_of app ≡ drill_app) }
    ensures strict { IfOk result IsStrict }
{
    let app = with_sketch_options(alloc, bare_app(alloc, "drill"))?;
    let app = with_trace_options(alloc, app)?;
    let app = with_solve_options(alloc, app)?;
    let app = with_made_options(alloc, app)?;
    Ok(app)
}

// With the options of a sketch.
#[tactic(auto, unfolding(crate::specs::Apps::with_sketch_options))]
fn with_sketch_options<'a>(alloc: Global, app: Command<'a>) -> Result<Command<'a>, AllocError>
    requires strict { IsStrict app }
    ensures app { IfOk result (λ more. app_of more ≡ with_sketch_options (app_of app.entry)) }
    ensures strict { IfOk result IsStrict }
    ensures needs { (name : List ℕ) → AreOther sketch_ids name → Needs name app.entry → IfOk result (Needs name) }
{
    let app = with_option(alloc, app, "seed")?;
    let app = with_option(alloc, app, "levels")?;
    let app = with_option(alloc, app, "rows")?;
    let app = with_option(alloc, app, "width")?;
    let app = with_option(alloc, app, "heap")?;
    let app = with_option(alloc, app, "weight")?;
    Ok(app)
}

// With the options of epochs and of heavy keys.
#[tactic(auto, unfolding(crate::specs::Apps::with_trace_options))]
fn with_trace_options<'a>(alloc: Global, app: Command<'a>) -> Result<Command<'a>, AllocError>
    requires strict { IsStrict app }
    ensures app { IfOk result (λ more. app_of more ≡ with_trace_options (app_of app.entry)) }
    ensures strict { IfOk result IsStrict }
    ensures needs { (name : List ℕ) → AreOther trace_ids name → Needs name app.entry → IfOk result (Needs name) }
{
    let app = with_option(alloc, app, "epoch")?;
    let app = with_option(alloc, app, "heavy")?;
    Ok(app)
}

// With the options of a search.
#[tactic(auto, unfolding(crate::specs::Apps::with_solve_options))]
fn with_solve_options<'a>(alloc: Global, app: Command<'a>) -> Result<Command<'a>, AllocError>
    requires strict { IsStrict app }
    ensures app { IfOk result (λ more. app_of more ≡ with_solve_options (app_of app.entry)) }
    ensures strict { IfOk result IsStrict }
    ensures needs { (name : List ℕ) → AreOther solve_ids name → Needs name app.entry → IfOk result (Needs name) }
{
    let app = with_option(alloc, app, "nodes")?;
    let app = with_option(alloc, app, "window")?;
    let app = with_option(alloc, app, "restarts")?;
    Ok(app)
}

// With the options of a made trace.
#[tactic(auto, unfolding(crate::specs::Apps::with_made_options))]
fn with_made_options<'a>(alloc: Global, app: Command<'a>) -> Result<Command<'a>, AllocError>
    requires strict { IsStrict app }
    ensures app { IfOk result (λ more. app_of more ≡ with_made_options (app_of app.entry)) }
    ensures strict { IfOk result IsStrict }
    ensures needs { (name : List ℕ) → AreOther made_ids name → Needs name app.entry → IfOk result (Needs name) }
{
    let app = with_option(alloc, app, "packets")?;
    let app = with_option(alloc, app, "flows")?;
    Ok(app)
}

// A command without a program's name before its words and without a flag of help.
fn bare_app<'a>(alloc: Global, name: &'a str) -> Command<'a>
    ensures app { app_of result ≡ bare_app name.entry.now }
    ensures strict { IsStrict result }
    ensures empty { args_of result ≡ [] }
{
    Command::new(alloc, name)
        .no_binary_name(true)
        .disable_help_flag(true)
}

// With a word that has to stand in its place.
fn with_name<'a>(alloc: Global, app: Command<'a>, id: &'a str) -> Result<Command<'a>, AllocError>
    requires strict { IsStrict app }
    requires fresh { IsFresh id.now (args_of app) }
    ensures app { IfOk result (λ more. app_of more ≡ with_name id.entry.now (app_of app.entry)) }
    ensures strict { IfOk result IsStrict }
    ensures needs { IfOk result (Needs id.entry.now) }
    ensures others { (name : List ℕ) → bytes_eq id.entry.now name ≡ false → Needs name app.entry
        → IfOk result (Needs name) }
    ensures free { (name : List ℕ) → bytes_eq id.entry.now name ≡ false → IsFresh name (args_of app.entry)
        → IfOk result (λ more. IsFresh name (args_of more)) }
{
    app.arg(name_arg(alloc, id))
}

// With a value that may be given behind two dashes and the id.
fn with_option<'a>(alloc: Global, app: Command<'a>, id: &'a str) -> Result<Command<'a>, AllocError>
    requires strict { IsStrict app }
    ensures app { IfOk result (λ more. app_of more ≡ with_option id.entry.now (app_of app.entry)) }
    ensures strict { IfOk result IsStrict }
    ensures needs { (name : List ℕ) → bytes_eq id.entry.now name ≡ false → Needs name app.entry
        → IfOk result (Needs name) }
{
    app.arg(option_arg(alloc, id))
}

fn name_arg<'a>(alloc: Global, id: &'a str) -> Arg<'a>
    ensures rule { rule_of result ≡ name_rule id.entry.now }
    ensures plain { IsPlainArg result }
    ensures local { result.global ≡ false }
    ensures id { result.id ≡ id.entry }
    ensures taken { TakesValue result }
{
    Arg::new(alloc, id).action(ArgAction::Set).required(true)
}

fn option_arg<'a>(alloc: Global, id: &'a str) -> Arg<'a>
    ensures rule { rule_of result ≡ option_rule id.entry.now }
    ensures plain { IsPlainArg result }
    ensures local { result.global ≡ false }
    ensures id { result.id ≡ id.entry }
{
    Arg::new(alloc, id).long(id).action(ArgAction::Set)
}
