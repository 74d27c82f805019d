// 13.14: the ECC cluster, as a definition, and its rows.
#![tactic(auto)]

ghost use Rattle.std.specs.Prelude.{◌≡◌};
ghost use Rattle.cluster.specs.EccCluster.{shown_row};

// Row n as those very bytes of the cluster; empty for n above 495 or a slice that is no cluster.
pub fn row(work: &[u8], n: usize) -> &[u8]
    ensures { result.now ≡ shown_row work.now n }
{
    if work.len() != sizes::WORK {
        return &work[..0];
    }
    if 495 < n {
        return &work[..0];
    }
    let start = sizes::ROW * n;
    let end = start + sizes::ROW;
    &work[start..end]
}
