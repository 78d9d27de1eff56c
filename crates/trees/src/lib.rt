// Trees of records: the definitions that contracts cite, and their theorems. There is no code here.
#![tactic(auto)]
