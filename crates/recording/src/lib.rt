// 13.16: the recording of an ECC cluster, 496 frames and the sync behind them. The definition is in specs; `recording_writer`, `recording_syncs` and
// `recording_frames` have the steps.
#![tactic(auto)]
