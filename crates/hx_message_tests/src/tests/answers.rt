//! Own answers as they go out.
use hx_answers::own_answer;

#[test]
fn each_status_has_an_answer_of_its_length(rt: HostRuntime) {
    let lengths: [(u16, usize); 8] = [
        (400, 66),
        (408, 70),
        (431, 86),
        (501, 70),
        (502, 66),
        (503, 74),
        (504, 70),
        (505, 81),
    ];
    for (status, length) in lengths {
        assert_eq!(rt; own_answer(status).map(|text| text.len()), Some(length));
    }
    assert!(rt; own_answer(200).is_none() && own_answer(404).is_none());
}
