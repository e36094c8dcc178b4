use crate::defect_line::{NoMark, read_defect_line};
use crate::number::read_number;
use defects::{Defect, Mark};

#[test]
fn a_mark_is_a_page_and_a_word(rt: HostRuntime) {
    let worn = Mark {
        page: 3,
        defect: Defect::Worn,
    };
    let lost = Mark {
        page: 0,
        defect: Defect::Lost,
    };
    assert_eq!(rt; read_defect_line(b"3 worn"), Ok(Some(worn)));
    assert_eq!(rt; read_defect_line(b"0 lost"), Ok(Some(lost)));
    assert_eq!(rt; read_defect_line(b""), Ok(None));
    assert_eq!(rt; read_defect_line(b"# 3 worn"), Ok(None));
    assert_eq!(rt; read_defect_line(b"3 losst"), Err(NoMark));
    assert_eq!(rt; read_defect_line(b" worn"), Err(NoMark));
    assert_eq!(rt; read_defect_line(b"-3 worn"), Err(NoMark));
}

#[test]
fn a_number_fits_32_bits(rt: HostRuntime) {
    assert_eq!(rt; read_number(b"4294967295"), Some(4294967295));
    assert_eq!(rt; read_number(b"4294967296"), None);
    assert_eq!(rt; read_number(b"007"), Some(7));
    assert_eq!(rt; read_number(b""), None);
}
