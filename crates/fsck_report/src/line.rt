// A report as a line of JSON.
ghost use Rattle.std.specs.Prelude.{◌≡◌, IfOk};
ghost use Rattle.serde_json.specs.View.{view, items_view};
ghost use Rattle.disk_check.specs.Told.{fault_told, faults_told, told};
ghost use Rattle.fsck_report.specs.Line.{fault_data, faults_data, report_data, report_text, report_with};

use disk_check::{Fault, Report};
use frang_base::{NoMemory, Text};
use serde_json::{Value, json};
use std::alloc::{AllocError, Global};

// A fault as a pair: its sector and its kind.
fn fault_value(alloc: Global, fault: &Fault) -> Result<Value, NoMemory>
    ensures { IfOk result (λ v. view v ≡ fault_data (fault_told fault.now)) }
{
    let sector = fault.sector.0;
    let kind = u64::from(fault.kind);
    Ok(json!(in alloc; [sector, kind])?)
}

fn fault_values(alloc: Global, faults: &[Fault]) -> Result<Vec<Value>, NoMemory>
    ensures { IfOk result (λ v. items_view v.items ≡ faults_data (faults_told faults.now)) }
{
    let mut values = Vec::new(alloc);
    for fault in faults {
        values.push(fault_value(alloc, fault)?)?;
    }
    Ok(values)
}

// The report with these faults.
fn report_with(alloc: Global, report: &Report, faults: Value) -> Result<Value, AllocError>
    ensures { IfOk result (λ v. view v ≡ report_with (told report.now) (view faults)) }
{
    // The key that comes last is put in first: each other one then goes in before it, which takes fewer steps to show.
    json!(in alloc; {
        "stands": report.stands,
        "blocks": report.blocks,
        "dirs": report.dirs,
        "faults": faults,
        "files": report.files,
        "larges": report.larges,
        "links": report.links,
        "segments": report.segments
    })
}

fn report_value(alloc: Global, report: &Report) -> Result<Value, NoMemory>
    ensures { IfOk result (λ v. view v ≡ report_data (told report.now)) }
{
    let faults = fault_values(alloc, &report.faults)?;
    Ok(report_with(alloc, report, Value::Array(faults))?)
}

/// The report as compact JSON, its keys in order, without a line feed.
pub fn report_line(alloc: Global, report: &Report) -> Result<Text, NoMemory>
    ensures { IfOk result (λ t. t ≡ report_text (told report.now)) }
{
    let text = report_value(alloc, report)?.to_string(alloc)?;
    Text::of(alloc, text.as_bytes())
}
