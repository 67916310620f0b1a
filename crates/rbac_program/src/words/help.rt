//! The texts of the help.

pub(crate) const ABOUT: &str =
    "Takes commands of role-based access control, one JSON object a line, and answers each line";

// The version, its date, and the logic that it is proved in, which several kits have.
pub(crate) const VERSION: &str = "0.16.0 (2026-12-01, rattle logic dac8208d650f15bf)";

pub(crate) const AFTER_HELP: &str = "\
Without words: the same as 'play - -'.

A line of serve asks a member a command, and is answered in one line:
  {\"at\":1,\"command\":{\"name\":\"AddUser\",\"user\":\"ann\"}}
  {\"answer\":\"Done\",\"line\":1}
A line of play is one of these; caller and serial are numbers, serials 0, 1, 2 and so on for each
caller, one for each of the 1 to 64 commands of a batch:
  {\"do\":\"submit\",\"at\":1,\"caller\":0,\"serial\":0,\"command\":{\"name\":\"AddUser\",\"user\":\"ann\"}}
  {\"do\":\"batch\",\"at\":1,\"caller\":0,\"serial\":1,\"commands\":[{\"name\":\"AddUser\",\"user\":\"bob\"}]}
  {\"do\":\"deliver\",\"at\":1}
  {\"do\":\"receive\",\"at\":1,\"from\":2,\"number\":1}
An answer is \"Done\", \"Granted\" or \"Refused\", what a review lists, or {\"denied\":WORD,\"number\":N};
{\"line\":1,\"refused\":WORD} is a line that was not taken.

The commands with their fields, of which roles is an array of names, n a number, each other one a name:
  AddUser DeleteUser AssignedRoles AuthorizedRoles UserPermissions  user
  AddRole DeleteRole AssignedUsers AuthorizedUsers RolePermissions  role
  AssignUser DeassignUser  user role
  GrantPermission RevokePermission  operation object role
  AddInheritance DeleteInheritance AddAscendant AddDescendant  ascendant descendant
  CreateSession  user session roles
  DeleteSession  user session
  AddActiveRole DropActiveRole  user session role
  CheckAccess  session operation object
  SessionRoles SessionPermissions  session
  RoleOperationsOnObject  role object
  UserOperationsOnObject  user object
  CreateSsdSet CreateDsdSet  set roles n
  DeleteSsdSet DeleteDsdSet  set
  AddSsdRoleMember AddDsdRoleMember DeleteSsdRoleMember DeleteDsdRoleMember  set role
  SetSsdSetCardinality SetDsdSetCardinality  set n
  SsdRoleSets DsdRoleSets
  SsdRoleSetRoles DsdRoleSetRoles SsdRoleSetCardinality DsdRoleSetCardinality  set

A founding file is TOML with the keys
  version                    1 or 2, needed
  hierarchy                  \"general\" or \"limited\", needed in version 2; version 1 has no such key, and is general
  members                    a whole number from 1 to 8, needed
  operations, objects        arrays of names, needed
  permissions                an array of [operation, object], needed
  clock, sent_limit          whole numbers; 0 and 65536 where they are absent
A name has 1 to 64 bytes of A-Z a-z 0-9 _ - and the full stop.

Examples:
  echo '{\"at\":1,\"command\":{\"name\":\"AddUser\",\"user\":\"ann\"}}' | rbac_monitor serve -
  rbac_monitor why --serve examples/hospital.toml examples/hospital.dump.jsonl shift read rota
  rbac_monitor VERB --help has an example of each verb.

Status:
  0  the input was read to its end and what was asked for was written, or this help was; of why, granted or not denied
  1  a fault of a file, of the founding, of the run or of the audit, or a line was refused (but of play and serve): one
     line on the error stream
  2  the command line is refused
  3  of why: the check would be refused
  4  of why: the command would be denied; of who: the founding has no such permission";

pub(crate) const FOUNDING: &str = "The file of the founding, or - for the sample founding";

pub(crate) const LINES: &str = "The file of the lines, or - for standard input";

pub(crate) const SERVE_LINES: &str = "LINES are client lines, as serve takes them, and no schedule";

pub(crate) const LENIENT: &str = "Goes on where a line is refused, which changes nothing";

pub(crate) const PLAY: &str = "Plays the lines of SCHEDULE on the world of FOUNDING";

pub(crate) const PLAY_EXAMPLE: &str =
    "Example:\n  rbac_monitor play examples/clinic.toml examples/clinic_day.jsonl";

pub(crate) const SERVE: &str =
    "Serves callers by the members of FOUNDING: standard input has one command of a member a line";

pub(crate) const SERVE_EXAMPLE: &str =
    "Example:\n  rbac_monitor serve examples/hospital.toml < examples/hospital.jsonl";

pub(crate) const MEMBER: &str =
    "Is one member of FOUNDING, for whoever brings it the others' messages: standard input asks it one thing a line";

pub(crate) const MEMBER_EXAMPLE: &str = "\
A line is one of these, and a message an object as {\"stamp\":[7,2]}; the answer is one line:
  {\"do\":\"submit\",\"caller\":0,\"serial\":0,\"command\":{\"name\":\"AddUser\",\"user\":\"ann\"}}
  {\"do\":\"batch\",\"caller\":0,\"serial\":1,\"commands\":[{\"name\":\"AddUser\",\"user\":\"bob\"}]}
  {\"do\":\"receive\",\"from\":2,\"number\":1,\"message\":{\"stamp\":[7,2]}}
  {\"do\":\"own\",\"number\":1,\"message\":{\"stamp\":[7,1]}}
  {\"do\":\"next\",\"caller\":0,\"serial\":1,\"commands\":[..]}     the message of a submit, that is not made
  {\"do\":\"answer\",\"from\":2,\"number\":1,\"message\":{..}}      the acknowledgement that a message wants first
  {\"do\":\"deliver\"} {\"do\":\"message\",\"number\":1} {\"do\":\"record\",\"number\":1} {\"do\":\"waits\"} {\"do\":\"dump\"}

Example:
  echo '{\"do\":\"submit\",\"caller\":0,\"serial\":0,\"command\":{\"name\":\"AddUser\",\"user\":\"ann\"}}' | rbac_monitor member - 1";

pub(crate) const NUMBER: &str = "The member's number, from 1 on";

pub(crate) const DUMP: &str = "Prints the client lines that make the policy again";

pub(crate) const DUMP_EXAMPLE: &str = "\
Examples:
  rbac_monitor dump --serve --lenient examples/hospital.toml examples/hospital.jsonl > dump.jsonl
  rbac_monitor dump --serve --lenient --to backup examples/hospital.toml examples/hospital.jsonl";

pub(crate) const TO: &str =
    "Writes founding.toml, commands.jsonl and SHA256SUMS into this new folder, whole or not at all";

pub(crate) const SHOW: &str = "Prints the policy as a page for people";

pub(crate) const SHOW_EXAMPLE: &str = "\
Examples:
  rbac_monitor show --serve examples/hospital.toml examples/hospital.dump.jsonl
  rbac_monitor show --dot --serve examples/hospital.toml examples/hospital.dump.jsonl | dot -T svg > roles.svg";

pub(crate) const DOT: &str = "The roles and their declared pairs as a graph for Graphviz";

pub(crate) const WHY: &str = "Tells what a check or a command would be answered, and why";

pub(crate) const WHY_EXAMPLE: &str = "\
Examples:
  rbac_monitor why --serve examples/hospital.toml examples/hospital.dump.jsonl shift read rota
  rbac_monitor why --serve examples/hospital.toml examples/hospital.dump.jsonl '{\"name\":\"AssignUser\",\"user\":\"omar\",\"role\":\"doctor\"}'";

pub(crate) const QUESTION: &str =
    "The session of a check, or a command as a JSON object and no other word";

pub(crate) const OPERATION: &str = "The operation";

pub(crate) const OBJECT: &str = "The object";

pub(crate) const WHO: &str = "Tells who may perform an operation on an object, and by which role";

pub(crate) const WHO_EXAMPLE: &str = "\
Example:
  rbac_monitor who --serve examples/hospital.toml examples/hospital.dump.jsonl read rota";

pub(crate) const TRACE: &str = "Prints what each line of a schedule does to its member";

pub(crate) const TRACE_EXAMPLE: &str = "\
Examples:
  rbac_monitor trace examples/silent_member.toml examples/silent_member.jsonl
  rbac_monitor trace --svg examples/silent_member.toml examples/silent_member.jsonl > schedule.svg";

pub(crate) const SVG: &str = "Lamport's space-time diagram of the schedule";

pub(crate) const DIFF: &str =
    "Prints the client lines that lead from the policy of FROM to that of TO; they were played before";

pub(crate) const DIFF_EXAMPLE: &str = "\
Examples:
  rbac_monitor diff examples/hospital.toml before.jsonl after.jsonl
  rbac_monitor diff examples/hospital.toml /dev/null examples/hospital.dump.jsonl
  rbac_monitor diff --lists examples/hospital.toml /dev/null examples/hospital.dump.jsonl";

pub(crate) const LISTS: &str =
    "Prints the lines of the dump of FROM that TO's has not behind '- ', and then those that only TO's has behind '+ '";

pub(crate) const FROM: &str = "The file of client lines, a journal or a dump, that one begins from";

pub(crate) const TO_LINES: &str = "The file of client lines whose policy is to be reached";

pub(crate) const LINT: &str =
    "Tells what is wrong with FOUNDING and LINES, each fault at its place; the status is 0 only where nothing is found";

pub(crate) const LINT_EXAMPLE: &str = "\
Examples:
  rbac_monitor lint examples/hospital.toml
  rbac_monitor lint --serve examples/hospital.toml examples/hospital.jsonl";
