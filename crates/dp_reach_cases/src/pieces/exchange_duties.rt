//! Where a real exchange may lead a call besides what this program's machine does, worked out by hand from what the applications do.

/// Where each leads besides, and which names may have which bytes. The channel is in `from`, at an extension of digits.
pub(super) const EXCHANGE_OWED: &str = r"
# What is dialled into the context of the second argument, and `i` for what is not found there.
DISA|1234,out→to out,{#*0123456789ABCD}* ; to out,i
disa|no-password, out ,x→to out,{#*0123456789ABCD}* ; to out,i
DISA|1234→to disa,{#*0123456789ABCD}* ; to disa,i
DISA|→to disa,{#*0123456789ABCD}* ; to disa,i
DISA|1234,o{ab}→to o{ab},{#*0123456789ABCD}* ; to o{ab},i
DISA|1234,{ab}*→to {ab}*,{#*0123456789ABCD}* ; to {ab}*,i ; to disa,{#*0123456789ABCD}* ; to disa,i
DISA|1{,x}→to {,1x}*,{#*0123456789ABCD}* ; to {,1x}*,i ; to disa,{#*0123456789ABCD}* ; to disa,i
# The mailboxes in the context of the second argument, or of the first.
Directory|vm,out→to out,{#*+-.0123456789ABCDEFGHIJKLMNOPQRSTUVWXYZ_abcdefghijklmnopqrstuvwxyz}*
Directory|vm,,f→to vm,{#*+-.0123456789ABCDEFGHIJKLMNOPQRSTUVWXYZ_abcdefghijklmnopqrstuvwxyz}*
Directory|→to default,{#*+-.0123456789ABCDEFGHIJKLMNOPQRSTUVWXYZ_abcdefghijklmnopqrstuvwxyz}*
# The operator and the assistant.
VoiceMail|100→to from,o ; to from,a
VoiceMailMain|→to from,o ; to from,a
ExecIf|x?VoiceMail(100)→to from,o ; to from,a
# A device that is an extension: its context is `default` if there is none, and what is behind a further `/` is no part of it.
Dial|Local/200@phones→DIALSTATUS {ACHILNUV} ; to phones,200
dial|local/200@phones/n,30→DIALSTATUS {ACHILNUV} ; to phones,200
Dial|SIP/100&Local/2@a& Local/3@b/nj,9→DIALSTATUS {ACHILNUV} ; to a,2 ; to b,3
Dial|Local/200→DIALSTATUS {ACHILNUV} ; to default,200
Dial|Local/{0-9}*@phones→DIALSTATUS {ACHILNUV} ; to phones,{0123456789}*
Dial|Local/2{@x}→DIALSTATUS {ACHILNUV} ; to {2@x}*,{2@x}* ; to default,{2@x}*
Dial|Local/2{/}@x→DIALSTATUS {ACHILNUV} ; to {/2@x}*,{/2@x}* ; to default,{/2@x}*
Dial|SIP/{0-9}*→DIALSTATUS {ACHILNUV}
Dial|{LOCA/1}*→DIALSTATUS {ACHILNUV} ; to {/1ACLO}*,{/1ACLO}* ; to default,{/1ACLO}*
Dial|{SIP/1}*→DIALSTATUS {ACHILNUV}
Dial|{lo}cal/1@x→DIALSTATUS {ACHILNUV} ; to x,1
Dial|{IPSX}*/1@x→DIALSTATUS {ACHILNUV}
Dial|SIP/1{&}Local/2@a→DIALSTATUS {ACHILNUV} ; to {&/12@ILPSaclo}*,{&/12@ILPSaclo}* ; to default,{&/12@ILPSaclo}*
Dial|Local/1@x{,}*→DIALSTATUS {ACHILNUV} ; to {,/1@Laclox}*,{,/1@Laclox}* ; to default,{,/1@Laclox}*
Dial|{,}→DIALSTATUS {ACHILNUV}
Page|Local/1@a&Local/2@b→to a,1 ; to b,2
AddQueueMember|q,Local/7@agents/n→AQMSTATUS {CEHNOQSU} ; AQMSTATUS {ABDELMRY} ; AQMSTATUS {ADE} ; to agents,7
ExecIf|a?Dial(Local/1@x)→DIALSTATUS {ACHILNUV} ; to x,1
# What a called side runs.
Originate|Local/1@a,exten,out,5,1→to a,1 ; to out,5
Originate|SIP/1,EXTEN,out→to out,s
Originate|SIP/1,app,Hangup→
Originate|SIP/1,{ex}*,out,{0-9}*→to out,{0123456789}* ; to out,s
# A phone that transfers the call.
Dial|SIP/1,20,rt→DIALSTATUS {ACHILNUV} ; to from,{#*0123456789ABCD}*
Dial|SIP/1,20,T→DIALSTATUS {ACHILNUV} ; to from,{#*0123456789ABCD}*
Dial|SIP/t,20,r→DIALSTATUS {ACHILNUV}
Dial|SIP/1,20,{rt}*→DIALSTATUS {ACHILNUV} ; to from,{#*0123456789ABCD}*
Dial|SIP/1{,t}*→DIALSTATUS {ACHILNUV} ; to from,{#*0123456789ABCD}*
Queue|q,t→waits ; QUEUESTATUS {KNOUW} ; QUEUESTATUS {EIJMNOPTY} ; QUEUESTATUS {FLU} ; to from,{#*0123456789ABCD}*
Queue|q,r→waits ; QUEUESTATUS {KNOUW} ; QUEUESTATUS {EIJMNOPTY} ; QUEUESTATUS {FLU}
# The context of transfers, and what runs when a call ends.
Set|TRANSFER_CONTEXT=out→TRANSFER_CONTEXT {otu} ; to out,{#*0123456789ABCD}*
Set|__TRANSFER_CONTEXT=o{ab}→TRANSFER_CONTEXT {abo} ; to o{ab},{#*0123456789ABCD}*
Set|GLOBAL(TRANSFER_CONTEXT)=o→TRANSFER_CONTEXT {o} ; to o,{#*0123456789ABCD}*
Set|TRANSFER_CONTEXT=→TRANSFER_CONTEXT {}
Set|TRANSFER=out→TRANSFER {otu}
Set|CHANNEL(hangup_handler_push)=out,s,1(a)→ARGC {0123456789} ; to out,s ; ARG1 {a}
# Options that run a subroutine, a macro, or an extension.
Dial|SIP/1,,rU(sub^a^b)→DIALSTATUS {ACHILNUV} ; ARGC {0123456789} ; to sub,s ; ARG1 {a} ; ARG2 {b}
Dial|SIP/1,,U({ab}*)→DIALSTATUS {ACHILNUV} ; ARGC {0123456789} ; to {ab}*,s
Dial|SIP/1,,U({a^})→DIALSTATUS {ACHILNUV} ; ARGC {0123456789} ; to {,^a}*,s ; each {,^a}
Dial|SIP/1,,{U(}a)→DIALSTATUS {ACHILNUV} ; ARGC {0123456789} ; to {(),/1IPSUa}*,s ; each {(),/1IPSUa}
Dial|SIP/1,,M(m^a)→DIALSTATUS {ACHILNUV} ; MACRO_EXTEN {0123456789} ; MACRO_CONTEXT {fmor} ; MACRO_PRIORITY {0123456789} ; ARGC {0123456789} ; to macro-m,s ; ARG1 {a}
Dial|SIP/1,,b(ou^9^1)→DIALSTATUS {ACHILNUV} ; ARGC {0123456789} ; to ou,9
Dial|SIP/1,,B(9^1)r→DIALSTATUS {ACHILNUV} ; ARGC {0123456789} ; to from,9
Dial|SIP/1,,b(ou^h^1(x^y))→DIALSTATUS {ACHILNUV} ; ARGC {0123456789} ; to ou,h ; ARG1 {x} ; ARG2 {y}
Dial|SIP/1,,G(ou^9^1)→DIALSTATUS {ACHILNUV} ; ARGC {0123456789} ; to ou,9
Dial|SIP/1,,F(1)→DIALSTATUS {ACHILNUV} ; ARGC {0123456789} ; to from,{0123456789}*
Dial|SIP/1,,L(1)→DIALSTATUS {ACHILNUV}
Dial|SIP/1,,{bx}(ou^9^1)→DIALSTATUS {ACHILNUV} ; ARGC {0123456789} ; to ou,9
# An unknown text right before the parenthesis may be empty, so that the letter is the one before it.
Dial|SIP/1,,b{x}*(ou^9^1)→DIALSTATUS {ACHILNUV} ; ARGC {0123456789} ; to {(),19^boux}*,{(),19^boux}* ; to {(),19^boux}*,{0123456789}* ; to from,{(),19^boux}* ; to from,{0123456789}* ; each {(),19^boux}
Page|SIP/1,b(a^b^1)→ARGC {0123456789} ; to a,b
Queue|q,,,,,,m,sub→waits ; QUEUESTATUS {KNOUW} ; QUEUESTATUS {EIJMNOPTY} ; QUEUESTATUS {FLU} ; MACRO_EXTEN {0123456789} ; MACRO_CONTEXT {fmor} ; MACRO_PRIORITY {0123456789} ; ARGC {0123456789} ; to macro-m,s ; ARGC {0123456789} ; to sub,s
";
