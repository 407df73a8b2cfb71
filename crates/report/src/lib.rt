// The text of an answer, written byte for byte into a lent buffer.
#![tactic(auto)]

ghost use Rattle.std.specs.Prelude.{◌≡◌, ◌++◌, ◌+◌, ◌*◌, ◌<◌, ◌≤◌, length};
ghost use Rattle.model.specs.Limits.{task_limit, report_bytes};
ghost use Rattle.model.specs.Notation.{text, decimal};
ghost use Rattle.model.specs.Report.{line, quick_word, verdict_word, worst_lines, details, report_of, refusal_line, written};
ghost use Rattle.words.specs.Out.{Fits, Puts};
ghost use Rattle.report.specs.Fits.{worst_bytes};
ghost use Rattle.report.specs.Put.{exported};

use values::{Answer, Refusal, TASK_LIMIT, Verdict};
use words::Out;

pub fn write_report(
    buffer: &mut [u8],
    tasks: usize,
    quick: bool,
    answer: Answer,
    verdict: Verdict,
) -> usize
    requires tasks_le_task_limit { tasks ≤ task_limit }
    requires report_bytes_in_bounds { report_bytes ≤ length buffer.old }
    ensures buffer_after { exported result buffer.new ≡ written (report_of tasks quick answer verdict) buffer.old }
    ensures upper_bound { result ≤ report_bytes }
{
    let measure = answer.measure;
    let mut out = Out::new(buffer);
    text::put_line(&mut out, b"tasks ", tasks as u64);
    text::put_pair(&mut out, b"load ", measure.load, b"/", measure.round);
    put_quick(&mut out, quick);
    text::put_line(&mut out, b"horizon ", measure.horizon);
    put_verdict(&mut out, verdict);
    text::put_line(&mut out, b"settled ", answer.settled);
    put_details(&mut out, tasks, answer, verdict);
    out.at()
}

pub fn write_refusal(buffer: &mut [u8], refusal: Refusal) -> usize
    requires { report_bytes ≤ length buffer.old }
    ensures buffer_after { exported result buffer.new ≡ written (refusal_line refusal) buffer.old }
    ensures upper_bound { result ≤ report_bytes }
{
    let number = u64::from(refusal.number);
    let place = u64::from(refusal.place);
    let mut out = Out::new(buffer);
    text::put_pair(&mut out, b"refused ", number, b" at ", place);
    out.at()
}

fn put_quick(out: &mut Out<'_>, quick: bool)
    requires { Fits (line (text "quick " ++ quick_word quick)) out.old }
    ensures { Puts (line (text "quick " ++ quick_word quick)) out.old out.new }
{
    if quick {
        out.put(b"quick pass\n");
    } else {
        out.put(b"quick none\n");
    }
}

fn put_verdict(out: &mut Out<'_>, verdict: Verdict)
    requires { Fits (line (text "verdict " ++ verdict_word verdict)) out.old }
    ensures { Puts (line (text "verdict " ++ verdict_word verdict)) out.old out.new }
{
    match verdict {
        Verdict::Passes => out.put(b"verdict passes\n"),
        Verdict::Overload => out.put(b"verdict overload\n"),
        Verdict::Late { .. } => out.put(b"verdict late\n"),
        Verdict::Undecided => out.put(b"verdict undecided\n"),
    }
}

fn put_details(out: &mut Out<'_>, tasks: usize, answer: Answer, verdict: Verdict)
    requires tasks_le_task_limit { tasks ≤ task_limit }
    requires room { Fits (details tasks answer verdict) out.old }
    ensures { Puts (details tasks answer verdict) out.old out.new }
{
    match verdict {
        Verdict::Passes => {
            put_worst_lines(out, tasks, answer.worst);
            text::put_line(out, b"idle ", answer.idle);
        }
        Verdict::Overload => (),
        Verdict::Late { from, to, demand } => put_interval(out, from, to, demand),
        Verdict::Undecided => (),
    }
}

fn put_worst_lines(out: &mut Out<'_>, tasks: usize, worst: [u32; TASK_LIMIT])
    requires tasks_le_task_limit { tasks ≤ task_limit }
    requires room { Fits (worst_lines worst tasks) out.old }
    ensures put { Puts (worst_lines worst tasks) out.old out.new }
    ensures upper_bound { out.new.at ≤ out.old.at + tasks * worst_bytes }
{
    for (task, response) in worst[..tasks].iter().enumerate() {
        text::put_pair(out, b"worst ", task as u64, b" ", u64::from(*response));
    }
}

fn put_interval(out: &mut Out<'_>, from: u64, to: u64, demand: u64)
    requires { Fits (line (text "interval " ++ decimal from ++ text " " ++ decimal to ++ text " demand " ++ decimal demand)) out.old }
    ensures { Puts (line (text "interval " ++ decimal from ++ text " " ++ decimal to ++ text " demand " ++ decimal demand)) out.old out.new }
{
    text::put_number(out, b"interval ", from);
    text::put_number(out, b" ", to);
    text::put_line(out, b" demand ", demand);
}
