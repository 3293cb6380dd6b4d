//! Writes the metrics as Prometheus reads them.
//!
//! Defined in: `specs/Meaning/Metrics.antt`, `specs/Meaning/MetricTable.antt`.
//! Tested in: `lg_answers_tests/src/answer.rt`, `lg_answers_tests/src/metrics.rt`.
ghost use Rattle.std.specs.Prelude.{◌≡◌, ◌++◌, IfOk, OnOk, string_bytes};
ghost use Rattle.std.specs.List.{flat_map};
ghost use Rattle.lg_answers.specs.Meaning.Metrics.{amount_text, count_of_kind, dropped_lines, drops_line};
ghost use Rattle.lg_answers.specs.Meaning.Metrics.{drops_sample, kind_line, kind_word, members_lines, metric_head};
ghost use Rattle.lg_answers.specs.Meaning.Metrics.{metric_lines, metrics_body, seconds_text, status_line};

use crate::metric::{Amount, METRICS, Metric};
use crate::route::{STATUS_KINDS, StatusKind};
use crate::snapshot::Snapshot;
use lg_counters::Drops;
use lg_rules::Record;
use std::alloc::{AllocError, Global};

/// Appends the two lines that say what a metric is.
#[tactic(auto, unfolding(crate::specs::Meaning::Metrics::metric_head))]
fn put_head(name: &str, help: &str, type_name: &str, text: &mut String) -> Result<(), AllocError>
    ensures { OnOk result
        (string_bytes text.new ≡ string_bytes text.old ++ metric_head name.now help.now type_name.now) }
{
    writeln!(text, "# HELP {name} {help}\n# TYPE {name} {type_name}")
}

/// Appends milliseconds in seconds, with three digits behind the point.
fn put_seconds(ms: u64, text: &mut String) -> Result<(), AllocError>
    ensures { OnOk result (string_bytes text.new ≡ string_bytes text.old ++ seconds_text ms) }
{
    let seconds = ms / 1000;
    let tenths = ms / 100 % 10;
    let hundredths = ms / 10 % 10;
    let thousandths = ms % 10;
    write!(text, "{seconds}.{tenths}{hundredths}{thousandths}")
}

/// Appends the value of a metric.
fn put_amount(amount: Amount, text: &mut String) -> Result<(), AllocError>
    ensures { OnOk result (string_bytes text.new ≡ string_bytes text.old ++ amount_text amount) }
{
    match amount {
        Amount::Number(number) => write!(text, "{number}"),
        Amount::Milliseconds(ms) => put_seconds(ms, text),
    }
}

/// Appends a metric of one value.
#[tactic(auto, unfolding(crate::specs::Meaning::Metrics::metric_lines))]
fn put_metric(snapshot: &Snapshot, metric: Metric, text: &mut String) -> Result<(), AllocError>
    ensures { OnOk result (string_bytes text.new ≡ string_bytes text.old ++ metric_lines snapshot.now metric) }
{
    put_head(metric.name(), metric.help(), metric.type_name(), text)?;
    text.push_str(metric.name())?;
    text.push_str(" ")?;
    put_amount(metric.amount(snapshot), text)?;
    text.push_str("\n")
}

/// Appends some metrics of one value.
fn put_metrics(snapshot: &Snapshot, metrics: &[Metric], text: &mut String) -> Result<(), AllocError>
    ensures { OnOk result
        (string_bytes text.new ≡ string_bytes text.old ++ flat_map (metric_lines snapshot.now) metrics.now) }
{
    for metric in metrics {
        put_metric(snapshot, *metric, text)?;
    }
    Ok(())
}

/// The word for a status.
fn kind_word(kind: StatusKind) -> &'static str
    ensures { result.now ≡ kind_word kind }
{
    match kind {
        StatusKind::Alive => "alive",
        StatusKind::Suspect => "suspect",
        StatusKind::Failed => "failed",
        StatusKind::Left => "left",
    }
}

/// How many of some members have a status.
fn count_of_kind(kind: StatusKind, members: &[Record]) -> usize
    ensures { result ≡ count_of_kind kind members.now }
{
    members
        .iter()
        .filter(|member| kind.is_of(&member.status))
        .count()
}

/// Appends the line of a number of members.
#[tactic(auto, unfolding(crate::specs::Meaning::Metrics::status_line))]
fn put_count(status: &str, count: usize, text: &mut String) -> Result<(), AllocError>
    ensures { OnOk result (string_bytes text.new ≡ string_bytes text.old ++ status_line status.now count) }
{
    writeln!(text, "lg_members{{status=\"{status}\"}} {count}")
}

/// Appends how many members have a status.
#[tactic(auto, unfolding(crate::specs::Meaning::Metrics::kind_line))]
fn put_kind(members: &[Record], kind: StatusKind, text: &mut String) -> Result<(), AllocError>
    ensures { OnOk result (string_bytes text.new ≡ string_bytes text.old ++ kind_line members.now kind) }
{
    put_count(kind_word(kind), count_of_kind(kind, members), text)
}

/// Appends how many members have each of some statuses.
fn put_kinds(members: &[Record], kinds: &[StatusKind], text: &mut String) -> Result<(), AllocError>
    ensures { OnOk result
        (string_bytes text.new ≡ string_bytes text.old ++ flat_map (kind_line members.now) kinds.now) }
{
    for kind in kinds {
        put_kind(members, *kind, text)?;
    }
    Ok(())
}

/// Appends how many members have each status.
#[tactic(auto, unfolding(crate::specs::Meaning::Metrics::members_lines))]
fn put_members(members: &[Record], text: &mut String) -> Result<(), AllocError>
    ensures { OnOk result (string_bytes text.new ≡ string_bytes text.old ++ members_lines members.now) }
{
    let help = "Members known, this member included, by status.";
    put_head("lg_members", help, "gauge", text)?;
    put_kinds(members, &STATUS_KINDS, text)
}

/// Appends how many datagrams were dropped for a fault.
#[tactic(auto, unfolding(crate::specs::Meaning::Metrics::drops_sample))]
fn put_drop(fault: &str, count: u64, text: &mut String) -> Result<(), AllocError>
    ensures { OnOk result (string_bytes text.new ≡ string_bytes text.old ++ drops_sample fault.now count) }
{
    writeln!(
        text,
        "lg_datagrams_dropped_total{{fault=\"{fault}\"}} {count}"
    )
}

/// Appends how many datagrams were dropped for each of some faults.
fn put_drops(dropped: &[Drops], text: &mut String) -> Result<(), AllocError>
    ensures { OnOk result (string_bytes text.new ≡ string_bytes text.old ++ flat_map drops_line dropped.now) }
{
    for drops in dropped {
        put_drop(drops.fault, drops.count, text)?;
    }
    Ok(())
}

/// Appends how many datagrams were dropped for each fault, with the head of the metric.
#[tactic(auto, unfolding(crate::specs::Meaning::Metrics::dropped_lines))]
fn put_dropped(dropped: &[Drops], text: &mut String) -> Result<(), AllocError>
    ensures { OnOk result (string_bytes text.new ≡ string_bytes text.old ++ dropped_lines dropped.now) }
{
    let help = "Datagrams dropped, by the fault of their bytes.";
    put_head("lg_datagrams_dropped_total", help, "counter", text)?;
    put_drops(dropped, text)
}

/// The body of the metrics. Memory is allocated for the text, of some 3,000 bytes.
#[tactic(auto, unfolding(crate::specs::Meaning::Metrics::metrics_body))]
pub(crate) fn metrics_body(alloc: Global, snapshot: &Snapshot) -> Result<String, AllocError>
    ensures { IfOk result (λ body. string_bytes body ≡ metrics_body snapshot.now) }
{
    let mut text = String::new(alloc);
    put_members(&snapshot.records, &mut text)?;
    put_metrics(snapshot, &METRICS, &mut text)?;
    put_dropped(&snapshot.dropped, &mut text)?;
    Ok(text)
}
