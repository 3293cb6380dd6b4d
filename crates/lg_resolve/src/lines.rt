//! What is told of a host on standard error.
//!
//! Defined in: `specs/Meaning/Lines.antt`, `lg_text/specs/Meaning/Reporting.antt`.
//! Tested in: `lg_command_tests/src/resolving.rt`, `cases/nodes`.
ghost use Rattle.std.specs.Prelude.{◌≡◌, IfOk, string_bytes};
ghost use Rattle.lg_resolve.specs.Meaning.Lines.{news_line, Tells};

use crate::known::HostNews;
use lg_config::HostName;
use lg_text::{FaultStream, report};
use std::alloc::{AllocError, Global};

/// The line of some news of a host. Allocates the line; the only error is that memory was refused.
fn news_line(alloc: Global, name: &HostName, news: HostNews) -> Result<String, AllocError>
    ensures { IfOk result (λ text. string_bytes text ≡ news_line name.now news) }
{
    let host = name.as_str();
    match news {
        HostNews::Fails => {
            format!(in alloc; "lg: the host {host} of the seeds doesn't resolve\n")
        }
        HostNews::Resolves => format!(in alloc; "lg: the host {host} of the seeds resolves\n"),
    }
}

/// Tells the news of a host, if there are any. A line for which memory is refused, or that the stream doesn't take, is
/// dropped.
pub(crate) fn tell_news<F: FaultStream>(
    alloc: Global,
    name: &HostName,
    news: Option<HostNews>,
    faults: &mut F,
)
    ensures { Tells (F.reported faults.old) (F.reported faults.new) name.now news }
{
    let Some(news) = news else {
        return;
    };
    if let Ok(line) = news_line(alloc, name, news) {
        report(faults, line.as_str());
    }
}
