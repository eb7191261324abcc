//! Laws, of any type at a concrete one.
use binlog_bodies::{XidEvent, laws as body_laws};
use binlog_consts::laws as constant_laws;
use binlog_event_format::laws;

#[test]
fn laws_hold_of_a_type(rt: HostRuntime) {
    constant_laws::numbers_are_codes();
    laws::header_is_spelled();
    laws::short_descriptions();
    laws::type_and_sizes();
    laws::constants();
    laws::post_header_lengths();
    body_laws::short_bodies();
    body_laws::event_types();
    body_laws::sizes();
    laws::body_is_spelled::<XidEvent>();
    laws::one_event::<XidEvent>();
    laws::body_is_canonical::<XidEvent>();
    laws::read_event_is_normal::<XidEvent>();
    assert!(rt; true);
}
