// The measures by a lent list of records, which passes as a pointer to C structs with the same fields and a length.
ghost use Rattle.std.specs.Prelude.{◌≡◌, length};
ghost use Rattle.drawing.specs.Refusals.{first_of, scratch_after};
ghost use Rattle.drawing.specs.Entries.{node_columns, exemption_columns};
ghost use Rattle.separation.specs.Conditions.{separation_conditions};
ghost use Rattle.separation.specs.Answer as Separation;
ghost use Rattle.congestion.specs.Conditions.{congestion_conditions};
ghost use Rattle.congestion.specs.Answer as Congestion;
ghost use Rattle.clearance.specs.Conditions.{clearance_conditions};
ghost use Rattle.clearance.specs.Answer as Clearance;
ghost use Rattle.records.specs.Records.{parallel_columns, edge_node_columns};
ghost use Rattle.exports.specs.Words.{separation_words, congestion_words, clearance_words};

use crate::words::write;
use drawing::{Exemptions, Nodes};
use records::{
    EdgeNodeSegment, ParallelSegment, measure_edge_node_clearance_bounded_by_records,
    measure_parallel_congestion_by_records, measure_parallel_congestion_profile_bounded_by_records,
    measure_parallel_density_profile_bounded_by_records,
    measure_parallel_separation_bounded_by_records,
};

pub fn readability_separation_by_records(
    records: &[ParallelSegment],
    allowance: usize,
    scratch: &mut [u64],
    out: &mut [u64; 5],
) -> u32
    ensures { let lent = parallel_columns records.now in
        let words = length scratch.old in
        let told = Separation.result_of (Separation.separation_answer lent allowance words) in
        (result ≡ told.0)
        × (out.new ≡ separation_words told.1)
        × (scratch.new ≡ scratch_after (first_of (separation_conditions lent words)) scratch.old) }
{
    let answer = measure_parallel_separation_bounded_by_records(records, allowance, scratch);
    write(answer, out)
}

pub fn readability_density_profile_by_records(
    records: &[ParallelSegment],
    cutoff: f64,
    allowance: usize,
    scratch: &mut [u64],
    out: &mut [u64; 7],
) -> u32
    ensures { let lent = parallel_columns records.now in
        let words = length scratch.old in
        let told = Congestion.result_of (Congestion.density_answer lent cutoff allowance words) in
        (result ≡ told.0)
        × (out.new ≡ congestion_words told.1)
        × (scratch.new ≡ scratch_after (first_of (congestion_conditions lent cutoff words)) scratch.old) }
{
    let answer = measure_parallel_density_profile_bounded_by_records(
        records, cutoff, allowance, scratch,
    );
    write(answer, out)
}

pub fn readability_congestion_profile_by_records(
    records: &[ParallelSegment],
    cutoff: f64,
    allowance: usize,
    scratch: &mut [u64],
    out: &mut [u64; 7],
) -> u32
    ensures { let lent = parallel_columns records.now in
        let words = length scratch.old in
        let told = Congestion.result_of (Congestion.profile_answer lent cutoff allowance words) in
        (result ≡ told.0)
        × (out.new ≡ congestion_words told.1)
        × (scratch.new ≡ scratch_after (first_of (congestion_conditions lent cutoff words)) scratch.old) }
{
    let answer = measure_parallel_congestion_profile_bounded_by_records(
        records, cutoff, allowance, scratch,
    );
    write(answer, out)
}

pub fn readability_congestion_by_records(
    records: &[ParallelSegment],
    cutoff: f64,
    scratch: &mut [u64],
    out: &mut [u64; 7],
) -> u32
    ensures { let lent = parallel_columns records.now in
        let words = length scratch.old in
        let told = Congestion.result_of (Congestion.congestion_answer lent cutoff words) in
        (result ≡ told.0)
        × (out.new ≡ congestion_words told.1)
        × (scratch.new ≡ scratch_after (first_of (congestion_conditions lent cutoff words)) scratch.old) }
{
    let answer = measure_parallel_congestion_by_records(records, cutoff, scratch);
    write(answer, out)
}

pub fn readability_clearance_by_records(
    records: &[EdgeNodeSegment],
    id: &[u32],
    x: &[f64],
    y: &[f64],
    width: &[f64],
    height: &[f64],
    exempt_net: &[u32],
    exempt_node: &[u32],
    threshold: f64,
    allowance: usize,
    scratch: &mut [u64],
    out: &mut [u64; 4],
) -> u32
    ensures { let lent_segments = edge_node_columns records.now in
        let lent_nodes = node_columns id.now x.now y.now width.now height.now in
        let lent_exemptions = exemption_columns exempt_net.now exempt_node.now in
        let words = length scratch.old in
        let told = Clearance.result_of (Clearance.clearance_answer lent_segments lent_nodes lent_exemptions threshold allowance words) in
        (result ≡ told.0)
        × (out.new ≡ clearance_words told.1)
        × (scratch.new ≡ scratch_after (first_of (clearance_conditions lent_segments lent_nodes lent_exemptions threshold words)) scratch.old) }
{
    let nodes = Nodes {
        id,
        x,
        y,
        width,
        height,
    };
    let exemptions = Exemptions {
        net: exempt_net,
        node: exempt_node,
    };
    let answer = measure_edge_node_clearance_bounded_by_records(
        records,
        &nodes,
        &exemptions,
        threshold,
        allowance,
        scratch,
    );
    write(answer, out)
}
