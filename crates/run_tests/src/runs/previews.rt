//! Runs of `preview`.

use super::*;

/// Views, and then explanations.
const PREVIEWS: &str = "preview;r|rules + R1 /Hospital/Folder/Admin;|HOSPITAL||PATIENT|
preview;r|rules |HOSPITAL|||
preview;r|rules + A //Folder;- B //Admin;+ C //SSN;|HOSPITAL||NUMBER|
preview;r|rules + P //SSN;- N //SSN;|HOSPITAL|||
preview;r|rules + R //Folder[Act/RPhys = \"Ana\"]/Admin;|HOSPITAL||PATIENT|
preview;r|rules + R //Folder[Act/RPhys = USER]/Admin;|HOSPITAL||PATIENT|
preview;r|rules + R //Folder[Act/RPhys = 'Bea']/Admin;|HOSPITAL|||
preview;r|rules + R //a[b]//c;|(a;(a;(c;)c;(b;)b;)a;)a||(-;(-;(c;)c;)-;)-|
preview;r|rules + R /r[x != \"1\"];|(r;(x;-1;)x;(x;-2;)x;)r||(r;(x;-1;)x;(x;-2;)x;)r|
preview;r|rules + R //Act[. = 'Anacalm'];|HOSPITAL||ACT|
preview;r|rules + R /r[n > 999999999999999998];|(r;(n;-999999999999999999;)n;)r||(r;(n;-999999999999999999;)n;)r|
preview;r|rules + R /Folder[@Id];|?xml version=\"1.0\";AId CDATA f1;ANote IMPLIED;(Folder;-a\\nb;)Folder;C||AId CDATA f1;ANote IMPLIED;(Folder;-a\\nb;)Folder|
preview;r|rules + R /Folder[@Note];|AId CDATA f1;ANote IMPLIED;(Folder;)Folder;C|||
preview;r;--explain|rules + R1 /Hospital/Folder/Admin;|HOSPITAL||- closed /;+ R1 /1/1|
preview;r;--explain|rules |HOSPITAL||- closed /|
preview;r;--explain|rules + A //Folder;- B //Admin;+ C //SSN;|HOSPITAL||- closed /;+ A /1;- B /1/1;+ C /1/1/1|
preview;r;--explain|rules + P //SSN;- N //SSN;|HOSPITAL||- closed /;- N /1/1/1|
preview;r;--explain|rules + R //Folder[Act/RPhys = USER]/Admin;|HOSPITAL||- closed /;+ R /1/1|
preview;r;--explain|rules + R /r[x != '1'];|(r;(x;-1;)x;(x;-2;)x;)r||+ R /|
preview;r;--explain|rules + R //Act[. = 'Anacalm'];|HOSPITAL||- closed /;+ R /1/2|
preview;r;--explain|rules + R /Folder[@Note];|ANote IMPLIED;(Folder;)Folder||- closed /|";

#[test]
fn a_document_is_shown_as_its_rules_say(rt: HostRuntime) -> Result<(), Fail> {
    for row in PREVIEWS.lines() {
        assert_row(&rt, row)?;
    }
    Ok(())
}

/// The act is granted, its details are not. Where the view is nothing, so is each answer.
const QUERIES: &str = "preview;r;--query;//Act[Details]|rules + A //Act;- B //Details;|HOSPITAL|||
preview;r;--query;//Act[RPhys]|rules + A //Act;- B //Details;|HOSPITAL||(-;(-;(Act;(RPhys;-Ana;)RPhys;)Act;)-;)-|
preview;;--query=//RPhys|rules + A //Act;- B //Details;|HOSPITAL||(-;(-;(-;(RPhys;-Ana;)RPhys;)-;)-;)-|
preview;r;--query;//*[. = USER]/RPhys|rules + A //Act;- B //Details;|HOSPITAL||(-;(-;(-;(RPhys;-Ana;)RPhys;)-;)-;)-|
preview;r;--query;/Hospital|rules + A //Act;- B //Details;|HOSPITAL|||
preview;r;--query;//*|rules |(a;)a|||";

#[test]
fn a_query_is_answered_from_the_view(rt: HostRuntime) -> Result<(), Fail> {
    for row in QUERIES.lines() {
        assert_row(&rt, row)?;
    }
    Ok(())
}
