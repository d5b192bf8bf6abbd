// What a line asks for.
use keyed::fields::FieldText;
use routing::row::RouteRow;

#[derive(Drop)]
pub enum Call {
    ReadRecord(Vec<u8>),
    WriteFields(FieldText),
    AddRoute(RouteRow),
    ForgetRoutes,
    // the target and the dataflow
    AskWay(Vec<u8>, Vec<u8>),
    // the record and the text sheet
    AskReason(Vec<u8>, Vec<u8>),
}
