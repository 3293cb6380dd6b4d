//! The texts of a page of accounts that are the same for all: its beginning, and its style sheet.
//!
//! Defined in: `specs/Meaning/Pages.antt`.
//! Tested in: `lg_explain_tests/src/pages.rt`.
ghost use Rattle.std.specs.Prelude.{◌≡◌};
ghost use Rattle.lg_accounts.specs.Meaning.Pages.{page_beginning, page_style};

/// What stands before the title.
const BEGINNING: &str = "<!DOCTYPE html>\n<html lang=\"en\">\n<head>\n<meta charset=\"utf-8\">\n\
<meta name=\"viewport\" content=\"width=device-width\">\n<title>";

/// How a browser shows the page: in light, in the dark, and in print.
const STYLE: &str = "\
:root { color-scheme: light dark; --good: #1b7837; --bad: #b35806; --gone: #c51b2f; --probe: \
#2166ac; --lane: #bbb; }\n\
@media (prefers-color-scheme: dark) { :root { --good: #7fc97f; --bad: #fdb863; --gone: #ff6b6b; \
--probe: #8ab4f8; --lane: #555; } }\n\
@media print { :root { color-scheme: light; --good: #1b7837; --bad: #b35806; --gone: #c51b2f; \
--probe: #2166ac; --lane: #bbb; } svg, li { break-inside: avoid; } }\n\
body { max-width: 60rem; margin: 2rem auto; padding: 0 1rem; font: 1rem/1.5 sans-serif; }\n\
svg { max-width: 100%; }\n\
text { fill: currentColor; dominant-baseline: central; }\n\
line { stroke: var(--lane); }\n\
circle { fill: none; stroke-width: 2; pointer-events: all; }\n\
.probe { stroke: var(--probe); }\n\
.late { fill: var(--bad); fill-opacity: 0.4; stroke: var(--bad); stroke-dasharray: 3 2; }\n\
.ack { fill: var(--good); stroke: var(--good); }\n\
.alive { stroke: var(--good); stroke-width: 4; }\n\
.suspect { fill: var(--bad); fill-opacity: 0.4; stroke: var(--bad); }\n\
.gone { fill: var(--gone); stroke: currentColor; }\n\
ol { padding: 0; list-style: none; }\n\
li { display: grid; grid-template-columns: minmax(4rem, max-content) 1fr; gap: 0.5rem; }\n";

/// What stands before the title of a page.
#[tactic(auto, unfolding(crate::specs::Meaning::Pages::page_beginning))]
pub(crate) fn page_beginning() -> &'static str
    ensures { result.now ≡ page_beginning }
{
    BEGINNING
}

/// The style sheet of a page.
#[tactic(auto, unfolding(crate::specs::Meaning::Pages::page_style))]
pub(crate) fn page_style() -> &'static str
    ensures { result.now ≡ page_style }
{
    STYLE
}
