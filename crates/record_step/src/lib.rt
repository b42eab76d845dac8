// One sample more of a record: specs/ says what it does to the state, proofs/ that the state stays sound, and that
// the samples one by one lead to the state of the whole list. There is no code here: whoever feeds a record takes
// most samples in blocks (`record_feed`).
#![tactic(auto)]
