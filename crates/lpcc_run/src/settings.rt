//! What the words ask of a solve.
ghost use Rattle.std.specs.Prelude.{◌≡◌, ◌≤◌, MatchOption};
ghost use Rattle.lpcc_run.specs.Commands.{as_asked, by_one_worker, limits_of, session_options, style_of, usual};

use play::{Options, ShrinkMode, Workers};
use report::Style;
use tree_engine::BranchOptions;
use words::{EditSettings, Form, MOST_WORKERS, Settings, TreeSettings, USUAL_PIECES, USUAL_PIVOTS};

/// The options with one worker.
pub(crate) fn options_of(settings: Settings) -> Options
    ensures { result ≡ by_one_worker settings }
{
    Options {
        workers: Workers::one(),
        pieces: settings.pieces,
        pivots: settings.pivots,
        shrink: if settings.full {
            ShrinkMode::Full
        } else {
            ShrinkMode::Off
        },
    }
}

/// The options as the words ask for them, where they ask for more than one worker.
pub(crate) fn many_workers(settings: Settings) -> Option<Options>
    requires { (1 ≤ settings.workers) × (settings.workers ≤ MOST_WORKERS) }
    ensures { MatchOption result (settings.workers ≡ 1) (λ o. o ≡ as_asked settings) }
{
    if settings.workers == 1 {
        return None;
    }
    let workers = Workers::from_number(settings.workers as u32)?;
    Some(Options {
        workers,
        pieces: settings.pieces,
        pivots: settings.pivots,
        shrink: if settings.full {
            ShrinkMode::Full
        } else {
            ShrinkMode::Off
        },
    })
}

/// The options where the words name none.
pub(crate) fn usual() -> Options
    ensures { result ≡ usual }
{
    Options {
        workers: Workers::one(),
        pieces: USUAL_PIECES,
        pivots: USUAL_PIVOTS,
        shrink: ShrinkMode::Full,
    }
}

/// What is written of a verdict.
pub(crate) fn style_of(settings: Settings) -> Style
    ensures { result ≡ style_of settings }
{
    if settings.brief {
        return Style::Brief;
    }
    match settings.form {
        Form::One => Style::One,
        Form::Two => Style::Two,
    }
}

/// How long a search by branching may be.
pub(crate) fn limits_of(settings: TreeSettings) -> BranchOptions
    ensures { result ≡ limits_of settings }
{
    BranchOptions {
        nodes: settings.nodes,
        pivots: settings.pivots,
    }
}

/// The options of the answers to a script of edits.
pub(crate) fn session_options(settings: EditSettings) -> Options
    ensures { result ≡ session_options settings }
{
    Options {
        pieces: settings.pieces,
        pivots: settings.pivots,
        ..usual()
    }
}
