//! Prints the text of an image for `info`.

ghost use Rattle.std.specs.Prelude.{◌≡◌, ◌<◌, ◌&&◌, Some, IsTrue, IfErr, OnOk, OnErr};
ghost use Rattle.sys_refusals.specs.Blamed.{TellsRead};
ghost use Rattle.cmd_common_boot.specs.Fault.{boot_side_of};
ghost use Rattle.sys_report.specs.Shows.{CannotPrint, ShowsHere};
ghost use Rattle.abt_sections.specs.Check.{IsVerdict};
ghost use Rattle.abt_sections.specs.Header.{view_of};
ghost use Rattle.abt_sections.specs.Open.{IsOpened};
ghost use Rattle.cmd_common_findings.specs.ReasonLines.{lines_of, printed};
ghost use Rattle.cmd_info.specs.Informing as spec;

use crate::info::InfoOutcome;
use abt_io::{Meter, Source, Window};
use abt_sections::{SectionFault, Verdict};
use cmd_common_boot::BootCommandFault;
use cmd_common_findings::{Findings, find_reasons};
use cmd_common_texts::{InfoReport, Notation, report_info};
use sys_refusals::{FileArg, HostFault, HostRefusal, Refusal, Sides};
use sys_report::Report;

/// Prints the values of an image's header, and with the check why its answers are no.
pub(crate) fn tell_image<'t, 'a, S: Source>(
    source: &mut S,
    report: &mut Report,
    input: FileArg<'t>,
    with_check: bool,
    with_hex: bool,
    w: &mut Window,
    m: &mut Meter,
) -> InfoOutcome<'t, 'a>
    ensures done { IsTrue S.models → OnOk result (spec.TellsImage (spec.notation_of with_hex) with_check
        (S.content source.old) report.old report.new) }
    ensures clean { OnOk result (S.read_faults source.new ≡ S.read_faults source.old) }
    ensures refused { IsTrue S.models → IfErr result (λ refusal. spec.IsInfoRefusal (S.content source.old)
        (spec.notation_of with_hex) with_check (S.read_faults source.old < S.read_faults source.new) report.old
        report.new refusal.fault) }
    ensures told_of { IfErr result (λ refusal. TellsRead (boot_side_of refusal.fault) refusal.about.place
        (Some input.entry)) }
{
    let told = match report_info(source, notation_of(with_hex), &mut report.out, w, m) {
        Ok(told) => told,
        Err(fault) => return Err(refused(input, report, fault)),
    };
    if !with_check {
        return Ok(());
    }
    match tell_check(&told, source, report, input, w, m) {
        Ok(()) => Ok(()),
        Err(refusal) => Err(refusal),
    }
}

// Prints why an answer is no, and fails where there is one.
fn tell_check<'t, 'a, S: Source>(
    told: &InfoReport,
    source: &mut S,
    report: &mut Report,
    input: FileArg<'t>,
    w: &mut Window,
    m: &mut Meter,
) -> InfoOutcome<'t, 'a>
    ensures good { OnOk result (IsTrue (spec.is_good told.now.verdict)) }
    ensures clean { OnOk result (S.read_faults source.new ≡ S.read_faults source.old) }
    ensures found { IsTrue S.models → IsOpened (S.content source.old) told.now.image → IsVerdict (S.content source.old)
        (view_of told.now.image.header) told.now.verdict → spec.IfChecked (λ refusal. refusal.fault) result
        (spec.TellsFindings (S.content source.old) report.old report.new) }
    ensures refused { IfErr result (λ refusal. spec.IsCheckRefusal told.now.verdict
        (S.read_faults source.old < S.read_faults source.new) (IsTrue S.models → IsVerdict (S.content source.old)
        (view_of told.now.image.header) told.now.verdict → ⊥) (CannotPrint report.old report.new) refusal.fault) }
    ensures told_of { IfErr result (λ refusal. TellsRead (boot_side_of refusal.fault) refusal.about.place
        (Some input.entry)) }
{
    let findings = match find_reasons(&told.image, told.verdict, source, w, m) {
        Ok(findings) => findings,
        Err(fault) => return Err(refused(input, report, fault)),
    };
    match tell_reasons(&findings, report) {
        Ok(()) => {}
        Err(refusal) => return Err(refusal.into()),
    }
    if is_good(told.verdict) {
        Ok(())
    } else {
        Err(Sides::none().refuse(BootCommandFault::CheckFailed))
    }
}

fn notation_of(with_hex: bool) -> Notation
    ensures { result ≡ spec.notation_of with_hex }
{
    if with_hex {
        Notation::Hexadecimal
    } else {
        Notation::Decimal
    }
}

fn tell_reasons<'t>(findings: &Findings, report: &mut Report) -> Result<(), HostRefusal<'t>>
    ensures shown { OnOk result (ShowsHere report.old report.new (printed (lines_of findings.now))) }
    ensures refused { OnErr result (CannotPrint report.old report.new) }
    ensures fault { IfErr result (λ refusal. refusal.fault ≡ HostFault.Write) }
{
    let lines = findings.lines();
    for i in 0..lines.len() {
        if let Some(line) = lines[i] {
            report.line(line)?;
        }
    }
    Ok(())
}

fn refused<'t, 'a>(
    input: FileArg<'t>,
    report: &Report,
    fault: SectionFault,
) -> Refusal<'t, BootCommandFault<'a>>
    ensures fault { result.fault ≡ BootCommandFault.Section fault }
    ensures told_of { TellsRead (boot_side_of result.fault) result.about.place (Some input.entry) }
{
    let printed = FileArg::new("report", "standard output");
    let sides = Sides::none().reading(input, None);
    let sides = sides.writing(printed, report.out.writer.why);
    sides.refuse(BootCommandFault::Section(fault))
}

fn is_good(verdict: Verdict) -> bool
    ensures { result ≡ spec.is_good verdict }
{
    verdict.canonical && verdict.padding && verdict.id && verdict.offset
}
