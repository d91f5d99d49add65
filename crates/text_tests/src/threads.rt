//! Types that threads hand over or share.

use filter_lang::{Expr, Term};
use pcap_source::{Capture, Frame};
use report_text::{Record, RecordKind, RecordList, Totals};

fn is_handed_over<T: Send>() -> bool {
    true
}

fn is_shared<T: Send + Sync>() -> bool {
    true
}

#[test]
fn threads_hand_over_captures_and_records(rt: HostRuntime) {
    assert!(rt;
        is_handed_over::<Capture>() && is_handed_over::<Frame>(),
        "captures"
    );
    assert!(rt;
        is_handed_over::<Record>() && is_handed_over::<RecordList>(),
        "records"
    );
}

#[test]
fn threads_share_filters_and_numbers(rt: HostRuntime) {
    assert!(rt; is_shared::<Expr>() && is_shared::<Term>(), "filters");
    assert!(rt;
        is_shared::<RecordKind>() && is_shared::<Totals>(),
        "numbers of a report"
    );
}
