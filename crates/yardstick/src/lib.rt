// The entry points that a program in another language compares and times. Each hands out one number of the answer at a call.
// R, N and entry stay three numbers, and a fault a flag and a place: so C hands them over.
#![tactic(auto)]

mod parts; // parts.rt: the numbers of an answer

ghost use Rattle.std.specs.Prelude.{◌≡◌, length, get_or};
ghost use Rattle.graph.specs.Checks.{runnable_check, source_check};
ghost use Rattle.file.specs.Reading.{read_answer, read_table};
ghost use Rattle.file.specs.Writing.{write_answer, write_output};
ghost use Rattle.harden.specs.Hardened.{harden_answer, harden_output};
ghost use Rattle.bench.specs.Runs.{answered, run_answer, run_events};
ghost use Rattle.bench.specs.Campaigns.{campaign_answer, campaign_first, campaign_second};
ghost use Rattle.yardstick.specs.Parts.{check_numbers, size_numbers, graph_numbers, run_numbers, score_numbers, fault_of};

use graph::Header;

// Reading a file: a number of the answer.
pub fn yardstick_read(bytes: &[u8], table: &mut [u32], part: usize) -> usize
    ensures value { result ≡ get_or (graph_numbers (read_answer bytes.now (length table.old))) part 0 }
    ensures table_after { table.new ≡ read_table bytes.now table.old }
{
    let answer = file::read(bytes, table);
    parts::part_of(answer.map(parts::graph_values), part)
}

// Writing a file: a number of the answer.
pub fn yardstick_write(
    registers: usize,
    nodes: usize,
    entry: usize,
    table: &[u32],
    out: &mut [u8],
    part: usize,
) -> usize
    ensures value { result ≡ get_or (size_numbers (write_answer registers nodes entry table.now (length out.old))) part 0 }
    ensures out_after { out.new ≡ write_output registers nodes entry table.now out.old }
{
    let header = Header {
        registers,
        nodes,
        entry,
    };
    let answer = file::write(header, table, out);
    parts::part_of(answer.map(parts::size_values), part)
}

// The check of a runnable graph: a number of the answer.
pub fn yardstick_check_runnable(
    registers: usize,
    nodes: usize,
    entry: usize,
    table: &[u32],
    part: usize,
) -> usize
    ensures { result ≡ get_or (check_numbers (runnable_check registers nodes entry table.now)) part 0 }
{
    let header = Header {
        registers,
        nodes,
        entry,
    };
    let answer = graph::check_runnable(header, table);
    parts::part_of(answer.map(|_| []), part)
}

// The check of a source graph: a number of the answer.
pub fn yardstick_check_source(
    registers: usize,
    nodes: usize,
    entry: usize,
    table: &[u32],
    part: usize,
) -> usize
    ensures { result ≡ get_or (check_numbers (source_check registers nodes entry table.now)) part 0 }
{
    let header = Header {
        registers,
        nodes,
        entry,
    };
    let answer = graph::check_source(header, table);
    parts::part_of(answer.map(|_| []), part)
}

// Hardening: a number of the answer.
pub fn yardstick_harden(
    registers: usize,
    nodes: usize,
    entry: usize,
    table: &[u32],
    out: &mut [u32],
    part: usize,
) -> usize
    ensures value { result ≡ get_or (graph_numbers (harden_answer registers nodes entry table.now (length out.old))) part 0 }
    ensures out_after { out.new ≡ harden_output registers nodes entry table.now out.old }
{
    let header = Header {
        registers,
        nodes,
        entry,
    };
    let answer = harden::harden(header, table, out);
    parts::part_of(answer.map(parts::graph_values), part)
}

// A run, undisturbed or with the branch at a place inverted: a number of the answer.
pub fn yardstick_run(
    registers: usize,
    nodes: usize,
    entry: usize,
    table: &[u32],
    inputs: &[u32],
    events: &mut [u32],
    budget: usize,
    inverted: bool,
    place: usize,
    part: usize,
) -> usize
    ensures value { result ≡ get_or
        (run_numbers (answered (run_answer registers nodes entry table.now inputs.now (length events.old) budget (fault_of inverted place))))
        part 0 }
    ensures events_after { events.new ≡ run_events registers nodes entry table.now inputs.now events.old budget (fault_of inverted place) }
{
    let header = Header {
        registers,
        nodes,
        entry,
    };
    let fault = parts::fault(inverted, place);
    let answer = bench::run(header, table, inputs, events, budget, fault);
    parts::run_part(answer, part)
}

// A campaign: a number of the answer.
pub fn yardstick_campaign(
    registers: usize,
    nodes: usize,
    entry: usize,
    table: &[u32],
    inputs: &[u32],
    first: &mut [u32],
    second: &mut [u32],
    budget: usize,
    part: usize,
) -> usize
    ensures value { result ≡ get_or
        (score_numbers (campaign_answer registers nodes entry table.now inputs.now (length first.old) (length second.old) budget))
        part 0 }
    ensures first_after { first.new ≡ campaign_first registers nodes entry table.now inputs.now first.old second.old budget }
    ensures second_after { second.new ≡ campaign_second registers nodes entry table.now inputs.now first.old second.old budget }
{
    let header = Header {
        registers,
        nodes,
        entry,
    };
    let answer = bench::campaign(header, table, inputs, first, second, budget);
    parts::part_of(answer.map(parts::score_values), part)
}
