// Records as text, a line each. Where standard output takes no more, nothing is left to say it on.
use ddm_object::DdmObject;
use dss_frame::DssFrame;
use dss_head::DssHeader;
use dss_salvage::{Entry, SalvageEntry};

pub(crate) fn frame(rt: &impl Print, frame: DssFrame) {
    let DssFrame {
        header,
        payload_at,
        payload_len,
        segments,
        at,
        end,
    } = frame;
    let DssHeader {
        length,
        dss_type,
        flags,
        correlation_id,
    } = header;
    let dss_type = dss_type.to_byte();
    let flags = flags.to_byte();
    let _ = println!(rt;
        "frame length {length} type {dss_type} flags {flags} corr {correlation_id} at {payload_at} bytes {payload_len} seg {segments} from {at} to {end}"
    );
}

pub(crate) fn entry(rt: &impl Print, e: SalvageEntry) {
    match e.entry {
        Entry::Frame(f) => frame(rt, f),
        Entry::Refused { refused, at, end } => {
            let number = refused.why.number();
            let value = refused.why.first_value();
            let place = refused.place;
            let _ = println!(rt; "refused {number} at {place} value {value} from {at} to {end}");
        }
    }
}

pub(crate) fn object(rt: &impl Print, o: DdmObject) {
    let DdmObject {
        code_point,
        in_work,
        data_at,
        data_len,
        consumed,
    } = o;
    let place = if in_work { " in work" } else { "" };
    let _ = println!(rt;
        "object {code_point}{place} at {data_at} bytes {data_len} takes {consumed}"
    );
}

// What a room holds.
pub(crate) fn bytes(rt: &impl Print, room: &[u8]) {
    let _ = rt.write_all(room);
    let _ = rt.print("\n");
}
