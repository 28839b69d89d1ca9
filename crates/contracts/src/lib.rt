// That each open function's contract permits a single reply: specs/ says what each permits. There is no code here.

#![tactic(auto)]
